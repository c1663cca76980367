// What changed in a log, and snapshots.
ghost use Rattle.std.specs.Prelude.{◌≡◌};
ghost use Rattle.rules.specs.Sync.{changes as changes_rule};
ghost use Rattle.rules.specs.Arguments.{snapshot_new};
ghost use Rattle.volume.specs.Snapshots.{range_says};
ghost use Rattle.volume.specs.Volumes.{maybe_lsn_says};
ghost use Rattle.arguments.specs.Snapshots.{snapshot_left, append_in, head_in};
ghost use Rattle.arguments.specs.Replies.{value_or};
ghost use Rattle.boundary.specs.Flags.{flagged};

use arguments::snapshots::{or_three, put_head, put_snapshot, snapshot_arg, snapshot_ok};
use arguments::{Reply, replies};
use basics::lsn::Lsn;
use basics::page_count::PageCount;
use basics::refusal::Refusal;
use volume::snapshot::{LogRange, Snapshot};
use volume::volume::changes;

// An LSN that is missing where its flag is 0.
fn flagged_lsn(flag: u32, lsn: u64) -> Option<Lsn>
    ensures { maybe_lsn_says result ≡ flagged flag lsn }
{
    if flag == 0 {
        return None;
    }
    Some(Lsn(lsn))
}

// The LSNs above the base up to the head, or nothing; a flag 0 says that the base or the head is missing: 1, 16.
pub fn sigatuda_changes(
    has_base: u32,
    base: u64,
    has_head: u32,
    head: u64,
    start: &mut u64,
    end: &mut u64,
) -> Reply
    ensures { (result, (start.new, end.new)) ≡ value_or (λ m. m) (start.old, end.old) (changes_rule (flagged has_base base) (flagged has_head head)) }
{
    replies::put_changes(
        changes(flagged_lsn(has_base, base), flagged_lsn(has_head, head)),
        start,
        end,
    )
}

// A range of a log.
fn log_range(log: &[u8; 16], start: u64, end: u64) -> LogRange
    ensures { range_says result ≡ record { log = log.now; start = start; end = end } }
{
    let id = *log;
    LogRange {
        log: id,
        start: Lsn(start),
        end: Lsn(end),
    }
}

// A snapshot of one range of a log: 1, 2, 3.
pub fn sigatuda_snapshot_new(
    log: &[u8; 16],
    start: u64,
    end: u64,
    count: u32,
    out: &mut [u8],
) -> Reply
    ensures { (result, out.new) ≡ snapshot_left out.old (snapshot_new (record { log = log.now; start = start; end = end }) count) }
{
    put_snapshot(
        Snapshot::new(log_range(log, start, end), PageCount(count)),
        out,
    )
}

// A snapshot with a range more, the last of its path: 1, 2, 3.
pub fn sigatuda_snapshot_append(
    snapshot: &[u8],
    log: &[u8; 16],
    start: u64,
    end: u64,
    out: &mut [u8],
) -> Reply
    ensures { (result, out.new) ≡ snapshot_left out.old (append_in snapshot.now (record { log = log.now; start = start; end = end })) }
{
    let a = snapshot_arg(snapshot).append(log_range(log, start, end));
    if !snapshot_ok(snapshot) {
        return or_three(a);
    }
    put_snapshot(a, out)
}

// The log and the end of the path's first range, or nothing: 1, 2, 3.
pub fn sigatuda_snapshot_head(snapshot: &[u8], log: &mut [u8; 16], lsn: &mut u64) -> Reply
    ensures { (result, (log.new, lsn.new)) ≡ value_or (λ h. h) (log.old, lsn.old) (head_in snapshot.now) }
{
    let s = snapshot_arg(snapshot);
    if !s.has_lsns() {
        return replies::refused(Refusal::Zero);
    }
    if !s.is_ordered() {
        return replies::refused(Refusal::Reversed);
    }
    if !snapshot_ok(snapshot) {
        return replies::refused(Refusal::Form);
    }
    put_head(s.head(), log, lsn)
}
