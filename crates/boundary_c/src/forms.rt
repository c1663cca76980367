// What an integrator asks before the first call: the number of this byte format, the size of each table's records and of each result list's entries, and the
// bytes of a table with room for so many records.
ghost use Rattle.std.specs.Prelude.{◌≡◌};
ghost use Rattle.boundary.specs.Formats.{record_size, entry_size, table_bytes};

// The number of the byte format.
#[unsafe(no_mangle)]
pub extern "C" fn sigatuda_format() -> u32
    ensures { result ≡ 1 }
{
    boundary::forms::sigatuda_format()
}

// The size of a table's records, in bytes: volumes, tags, commits, checkpoints, index, presence are tables 0 to 5; 0 for any other.
#[unsafe(no_mangle)]
pub extern "C" fn sigatuda_record_size(table: u32) -> u32
    ensures { result ≡ record_size table }
{
    boundary::forms::sigatuda_record_size(table)
}

// The size of a result list's entries, in bytes: volumes, tags, stored LSNs, commits of a snapshot, frames of a segment, walk, missing frames are lists 0 to 6; 0 for
// any other.
#[unsafe(no_mangle)]
pub extern "C" fn sigatuda_entry_size(list: u32) -> u32
    ensures { result ≡ entry_size list }
{
    boundary::forms::sigatuda_entry_size(list)
}

// The bytes of a table with room for so many records: two of count, then the records; 0 for a table that there is not, and above 65,535 records.
#[unsafe(no_mangle)]
pub extern "C" fn sigatuda_table_bytes(table: u32, records: u32) -> u32
    ensures { result ≡ table_bytes table records }
{
    boundary::forms::sigatuda_table_bytes(table, records)
}
