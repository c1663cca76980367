// What an integrator asks before the first call: the number of this byte format, the size of each table's records and of each result list's entries, and the
// bytes of a table with room for so many records.
ghost use Rattle.std.specs.Prelude.{◌≡◌};
ghost use Rattle.boundary.specs.Formats.{record_size, entry_size, table_bytes};

// The number of the byte format.
pub fn sigatuda_format() -> u32
    ensures { result ≡ 1 }
{
    1
}

// The size of a table's records, in bytes: volumes, tags, commits, checkpoints, index, presence are tables 0 to 5; 0 for any other.
pub fn sigatuda_record_size(table: u32) -> u32
    ensures { result ≡ record_size table }
{
    match table {
        0 => layout::VOLUME as u32,
        1 => layout::TAG as u32,
        2 => layout::COMMIT as u32,
        3 => layout::CHECKPOINT as u32,
        4 => layout::ENTRY as u32,
        5 => layout::PRESENT as u32,
        _ => 0,
    }
}

// The size of a result list's entries, in bytes: volumes, tags, stored LSNs, commits of a snapshot, frames of a segment, walk, missing frames are lists 0 to 6; 0 for
// any other.
pub fn sigatuda_entry_size(list: u32) -> u32
    ensures { result ≡ entry_size list }
{
    match list {
        0 => layout::VOLUME as u32,
        1 => layout::TAG as u32,
        2 => 8,
        3 => layout::COMMIT as u32,
        4 => layout::RANGE as u32,
        5 => (24 + layout::SEGMENT + layout::SET) as u32,
        6 => layout::RANGE as u32,
        _ => 0,
    }
}

// The bytes of a table with room for so many records: two of count, then the records; 0 for a table that there is not, and above 65,535 records.
pub fn sigatuda_table_bytes(table: u32, records: u32) -> u32
    ensures { result ≡ table_bytes table records }
{
    let size = sigatuda_record_size(table);
    if size == 0 {
        return 0;
    }
    if records > 65535 {
        return 0;
    }
    2 + records * size
}
