// Lookups among the checkpoints and in the page index: each is one find of a key, and a test of the record that stands there.
#![tactic(auto)]

ghost use Rattle.std.specs.Prelude.{◌≡◌, ◌+◌, ◌≤◌, true, length};
ghost use Rattle.octets.specs.Bytes.{part};
ghost use Rattle.rules.specs.Lists.{first};
ghost use Rattle.rules.specs.Tables.{checkpoint_at};
ghost use Rattle.rules.specs.Search.{entry_in};
ghost use Rattle.layout.specs.Records.{checkpoint_bytes, entry_bytes};
ghost use Rattle.layout.specs.Tables.{checkpoints_in, checkpoints_ok, index_in, index_ok};
ghost use Rattle.volume.specs.Volumes.{maybe_lsn_says};
ghost use Rattle.volume.specs.Snapshots.{range_says};
ghost use Rattle.lookups.specs.Found.{at_or_below, checkpoint_lsn, entry_lsn};

use basics::id;
use basics::id::LogId;
use basics::lsn::Lsn;
use basics::pageidx::PageIdx;
use layout::{CHECKPOINT, ENTRY};
use volume::snapshot::LogRange;

// Whether the checkpoint at a place is the log's, at or below an LSN.
fn at_or_below(t: &[u8], at: usize, log: LogId, lsn: Lsn) -> bool
    requires { at + 25 ≤ length t.now }
    ensures { result ≡ at_or_below log lsn.0 (checkpoint_bytes.read (part at 25 t.now)) }
{
    if !id::same(log, octets::load_id(t, at + 1)) {
        return false;
    }
    entries::checkpoint_lsn(t, at).0 <= lsn.0
}

// The LSN of the log's highest checkpoint at or below an LSN, or nothing.
pub fn checkpoint_at(t: &[u8], log: LogId, lsn: Lsn) -> Option<Lsn>
    requires { checkpoints_ok t.now ≡ true }
    ensures { maybe_lsn_says result ≡ checkpoint_lsn (checkpoint_at (checkpoints_in t.now) log lsn.0) }
{
    let key = layout::log_key(log, lsn.0);
    let i = table::from_key(t, CHECKPOINT, CHECKPOINT, &key);
    if i == table::count(t) {
        return None;
    }
    let at = 2 + i * CHECKPOINT;
    if !at_or_below(t, at, log, lsn) {
        return None;
    }
    Some(entries::checkpoint_lsn(t, at))
}

// Whether the index entry at a place is one of a page, in a range.
fn in_range(t: &[u8], at: usize, range: LogRange, page: PageIdx) -> bool
    requires { at + 29 ≤ length t.now }
    ensures { result ≡ entry_in (range_says range) page.0 (entry_bytes.read (part at 29 t.now)) }
{
    let log = range.log;
    if !id::same(log, octets::load_id(t, at + 1)) {
        return false;
    }
    if page.0 != entries::entry_page(t, at).0 {
        return false;
    }
    let lsn = entries::entry_lsn(t, at);
    if lsn.0 < range.start.0 {
        return false;
    }
    lsn.0 <= range.end.0
}

// The LSN of the index entry of a page with the highest LSN in a range, or nothing.
pub fn entry_in(t: &[u8], range: LogRange, page: PageIdx) -> Option<Lsn>
    requires { index_ok t.now ≡ true }
    ensures { maybe_lsn_says result ≡ entry_lsn (first (entry_in (range_says range) page.0) (index_in t.now).rows) }
{
    let log = range.log;
    let end = range.end;
    let key = entries::entry_key(log, page, end);
    let i = table::from_key(t, ENTRY, ENTRY, &key);
    if i == table::count(t) {
        return None;
    }
    let at = 2 + i * ENTRY;
    if !in_range(t, at, range, page) {
        return None;
    }
    Some(entries::entry_lsn(t, at))
}
