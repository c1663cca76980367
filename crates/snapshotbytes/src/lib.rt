// A snapshot in bytes (docs/TABLES.md): a reserved byte, the page count, the number of ranges, 8 places of 32 bytes.
// Numbers 1 and 2 of a snapshot that is an argument in bytes are those of the value that is read: reading asks no form, and the value has the first
// ranges, at most 8 of them (`Snapshot::has_lsns`, `Snapshot::is_ordered`). Number 3 is `snapshot_form`.
#![tactic(auto)]

ghost use Rattle.std.specs.Prelude.{◌≡◌, ◌+◌, ◌-◌, ◌*◌, ◌≤◌, min, true, ◌++◌, map, length, replicate};
ghost use Rattle.octets.specs.Bytes.{be, part, put};
ghost use Rattle.octets.specs.Flat.{flat};
ghost use Rattle.table.specs.Table.{runs};
ghost use Rattle.layout.specs.Codecs.{spelled};
ghost use Rattle.layout.specs.Values.{range_bytes, snapshot_bytes};
ghost use Rattle.volume.specs.Snapshots.{range_says, snapshot_says, laid_range, no_range, in_form, laid};

use basics::lsn::Lsn;
use basics::page_count::PageCount;
use volume::snapshot::{LogRange, Snapshot};

// The number of ranges of the snapshot at a place: what its byte says, and 8 where that is above 8.
fn ranges_at(s: &[u8], at: usize) -> usize
    requires { at + 262 ≤ length s.now }
    ensures { result ≡ min (be (part (at + 5) 1 s.now)) 8 }
{
    usize::from(octets::load8(s, at + 5)).min(8)
}

// Whether the bytes at a place are a snapshot's: the reserved byte is 0, at most 8 ranges, zero past them. Where they are not, number 3.
pub fn snapshot_form(s: &[u8], at: usize) -> bool
    requires { at + 262 ≤ length s.now }
    ensures { result ≡ spelled snapshot_bytes (part at 262 s.now) }
{
    if octets::load8(s, at) != 0 {
        return false;
    }
    if 8 < octets::load8(s, at + 5) {
        return false;
    }
    let n = ranges_at(s, at);
    octets::all_zero(s, at + 6 + n * 32, (8 - n) * 32)
}

// The range at a place.
fn range_read(s: &[u8], at: usize) -> LogRange
    requires { at + 32 ≤ length s.now }
    ensures { result ≡ laid_range (range_bytes.read (part at 32 s.now)) }
{
    let log = octets::load_id(s, at);
    let start = Lsn(octets::load64(s, at + 16));
    let end = Lsn(octets::load64(s, at + 24));
    LogRange { log, start, end }
}

// The n ranges from a place on, and zero past them.
// Kept: windows, frames and LSNs have the same loop in their crates; a trait would want an impl where neither it nor the type stands, and a closure a law longer than the loop.
fn path_read(s: &[u8], at: usize, n: usize) -> [LogRange; 8]
    requires { (n ≤ 8) × (at + 256 ≤ length s.now) }
    ensures { result ≡ map laid_range (map range_bytes.read (runs n 32 at s.now)) ++ replicate (8 - n) no_range }
{
    let empty = Snapshot::empty(PageCount(0));
    let mut path = empty.path;
    for i in 0..n {
        path[i] = range_read(s, at + i * 32);
    }
    path
}

// The snapshot at a place.
pub fn snapshot_read(s: &[u8], at: usize) -> Snapshot
    requires { at + 262 ≤ length s.now }
    ensures { result ≡ laid (snapshot_bytes.read (part at 262 s.now)) }
{
    let count = PageCount(octets::load32(s, at + 1));
    let len = ranges_at(s, at);
    let path = path_read(s, at + 6, len);
    Snapshot { len, path, count }
}

// A range over the 32 bytes at a place. (A log has 16 bytes.)
fn range_write(s: &mut [u8], at: usize, range: LogRange)
    requires { at + 32 ≤ length s.old }
    ensures s_after { s.new ≡ put at (range_bytes.spell (range_says range)) s.old }
    ensures log_len { length range.log ≡ 16 }
{
    let log = range.log;
    octets::store_id(s, at, log);
    octets::store64(s, at + 16, range.start.0);
    octets::store64(s, at + 24, range.end.0);
}

// The 8 ranges of a path, 256 bytes, over those from a place on.
// Kept: windows, frames and LSNs have the same loop in their crates; a trait would want an impl where neither it nor the type stands, and a closure a law longer than the loop.
fn path_write(s: &mut [u8], at: usize, path: [LogRange; 8])
    requires { at + 256 ≤ length s.old }
    ensures s_after { s.new ≡ put at (flat (λ r. range_bytes.spell (range_says r)) path) s.old }
    ensures path_len { length (flat (λ r. range_bytes.spell (range_says r)) path) ≡ 256 }
{
    for (i, range) in path.iter().enumerate() {
        range_write(s, at + i * 32, *range);
    }
}

// A snapshot in form over the bytes at a place. (It has 262 bytes.)
pub fn snapshot_write(s: &mut [u8], at: usize, snapshot: Snapshot)
    requires { (at + 262 ≤ length s.old) × (in_form snapshot ≡ true) }
    ensures s_after { s.new ≡ put at (snapshot_bytes.spell (snapshot_says snapshot)) s.old }
    ensures snapshot_len { length (snapshot_bytes.spell (snapshot_says snapshot)) ≡ 262 }
{
    let path = snapshot.path;
    octets::store8(s, at, 0);
    octets::store32(s, at + 1, snapshot.count.0);
    octets::store8(s, at + 5, snapshot.len as u8);
    path_write(s, at + 6, path);
}
