// What changed in a log, and snapshots.
ghost use Rattle.refusals.specs.Refusals.{AsFound};

use arguments::Reply;
use boundary::logs::{
    sigatuda_changes, sigatuda_snapshot_append, sigatuda_snapshot_head, sigatuda_snapshot_new,
};

// Changes: refused, it leaves both places of the answer as found.
pub fn changes(
    has_base: u32,
    base: u64,
    has_head: u32,
    head: u64,
    start: &mut u64,
    end: &mut u64,
) -> Reply
    ensures as_found { AsFound result start.old start.new }
    ensures as_found_2 { AsFound result end.old end.new }
{
    sigatuda_changes(has_base, base, has_head, head, start, end)
}

// A snapshot of one range: refused, it leaves the place of the answer as found.
pub fn snapshot_new(log: &[u8; 16], start: u64, end: u64, count: u32, out: &mut [u8]) -> Reply
    ensures { AsFound result out.old out.new }
{
    sigatuda_snapshot_new(log, start, end, count, out)
}

// A snapshot with a range more: refused, it leaves the place of the answer as found.
pub fn snapshot_append(
    snapshot: &[u8],
    log: &[u8; 16],
    start: u64,
    end: u64,
    out: &mut [u8],
) -> Reply
    ensures { AsFound result out.old out.new }
{
    sigatuda_snapshot_append(snapshot, log, start, end, out)
}

// A snapshot's head: refused, it leaves both places of the answer as found.
pub fn snapshot_head(snapshot: &[u8], log: &mut [u8; 16], lsn: &mut u64) -> Reply
    ensures as_found { AsFound result log.old log.new }
    ensures as_found_2 { AsFound result lsn.old lsn.new }
{
    sigatuda_snapshot_head(snapshot, log, lsn)
}
