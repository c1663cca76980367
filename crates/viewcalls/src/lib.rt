// The calls on what a reader sees of a volume: its snapshot, and whether a snapshot is the latest. Each answers on every input, 20 first.
#![tactic(auto)]

ghost use Rattle.std.specs.Prelude.{◌≡◌, ◌≤◌, true, ◌&&◌, [], ◌∷◌, take};
ghost use Rattle.pagecalls.specs.Says.{yes_says};
ghost use Rattle.rules.specs.Lists.{all, any, is_some, is_none};
ghost use Rattle.rules.specs.Tables.{latest_lsn};
ghost use Rattle.rules.specs.Snapshots.{watermark_of, remote_of, below, after, remote_snapshot, snapshot_of, snapshot as snapshot_rule, is_at, is_remote, same_answer, is_latest};
ghost use Rattle.volume.specs.Volumes.{maybe_lsn_says, sync_says, volume_says};
ghost use Rattle.volume.specs.Snapshots.{range_says, snapshot_says, laid, answer_says, laid_answer};
ghost use Rattle.layout.specs.Tables.{volumes_in, volumes_ok, commits_in, commits_ok};
ghost use Rattle.layout.specs.Lent.{lent};
ghost use Rattle.viewcalls.specs.Checks.{latest_by, checked};

use basics::id;
use basics::id::{LogId, VolumeId};
use basics::lsn::Lsn;
use basics::page_count::PageCount;
use basics::refusal::Refusal;
use commits::{commits_formed, count_at, find_commit, lsn_at};
use volume::snapshot::{LogRange, Snapshot};
use volume::volume::{SyncPoint, Volume};
use volumes::{find_volume, volume_at, volumes_formed};

// ---- snapshots of one range and of two

// A snapshot of one range.
fn one_range(range: LogRange, count: u32) -> Snapshot
    ensures { result ≡ laid (record { path = range_says range ∷ []; count = count }) }
{
    let none = Snapshot::empty(PageCount(count));
    let mut path = none.path;
    path[0] = range;
    Snapshot {
        len: 1,
        path,
        count: PageCount(count),
    }
}

// A snapshot of two ranges.
fn two_ranges(range: LogRange, next: LogRange, count: u32) -> Snapshot
    ensures { result ≡ laid (record { path = range_says range ∷ range_says next ∷ []; count = count }) }
{
    let none = Snapshot::empty(PageCount(count));
    let mut path = none.path;
    path[0] = range;
    path[1] = next;
    Snapshot {
        len: 2,
        path,
        count: PageCount(count),
    }
}

// ---- a volume's sync point

// The watermark, which may be missing.
pub fn watermark_of(sync: Option<SyncPoint>) -> Option<Lsn>
    ensures { maybe_lsn_says result ≡ watermark_of (sync_says sync) }
{
    match sync {
        None => None,
        Some(point) => point.watermark,
    }
}

// The remote LSN that was synced, which is missing with the sync point.
pub fn remote_of(sync: Option<SyncPoint>) -> Option<Lsn>
    ensures { maybe_lsn_says result ≡ remote_of (sync_says sync) }
{
    match sync {
        None => None,
        Some(point) => {
            let remote = point.remote;
            Some(remote)
        }
    }
}

// Whether a watermark is missing or below an LSN.
pub fn is_below(watermark: Option<Lsn>, lsn: u64) -> bool
    ensures { result ≡ below (maybe_lsn_says watermark) lsn }
{
    match watermark {
        None => true,
        Some(w) => w.0 < lsn,
    }
}

// The LSN after a watermark that is below another, or 1.
fn lsn_after(watermark: Option<Lsn>, lsn: u64) -> u64
    requires { below (maybe_lsn_says watermark) lsn ≡ true }
    ensures { result ≡ after (maybe_lsn_says watermark) }
{
    match watermark {
        None => 1,
        Some(w) => w.0 + 1,
    }
}

// ---- snapshot

// What is seen of the remote alone: all up to the commit at sync.remote, or nothing where that is not stored.
fn remote_snapshot(commits: &[u8], v: Volume) -> Snapshot
    requires { commits_ok commits.now ≡ true }
    ensures { result ≡ laid (remote_snapshot (commits_in commits.now) (volume_says v) (remote_of (sync_says v.sync))) }
{
    let log = v.remote;
    let sync = v.sync;
    let Some(lsn) = remote_of(sync) else {
        return Snapshot::empty(PageCount(0));
    };
    let Some(i) = find_commit(commits, log, lsn.0) else {
        return Snapshot::empty(PageCount(0));
    };
    let range = LogRange {
        log,
        start: Lsn(1),
        end: Lsn(lsn_at(commits, i)),
    };
    one_range(range, count_at(commits, i))
}

// A volume's snapshot.
pub fn snapshot_of(commits: &[u8], v: Volume) -> Snapshot
    requires { commits_ok commits.now ≡ true }
    ensures { result ≡ laid (snapshot_of (commits_in commits.now) (volume_says v)) }
{
    let local = v.local;
    let remote = v.remote;
    let sync = v.sync;
    let Some(i) = commits::latest(commits, local) else {
        return remote_snapshot(commits, v);
    };
    let end = lsn_at(commits, i);
    let watermark = watermark_of(sync);
    if !is_below(watermark, end) {
        return remote_snapshot(commits, v);
    }
    let count = count_at(commits, i);
    let range = LogRange {
        log: local,
        start: Lsn(lsn_after(watermark, end)),
        end: Lsn(end),
    };
    let Some(synced) = remote_of(sync) else {
        return one_range(range, count);
    };
    let next = LogRange {
        log: remote,
        start: Lsn(1),
        end: synced,
    };
    two_ranges(range, next, count)
}

// The snapshot of the volume of an identifier: 20, 4.
pub fn snapshot(volumes: &[u8], commits: &[u8], vid: VolumeId) -> Result<Snapshot, Refusal>
    ensures { answer_says result ≡ laid_answer (lent (volumes_ok volumes.now && commits_ok commits.now) (snapshot_rule (volumes_in volumes.now) (commits_in commits.now) vid)) }
{
    if !volumes_formed(volumes) {
        return Err(Refusal::TableForm);
    }
    if !commits_formed(commits) {
        return Err(Refusal::TableForm);
    }
    let Ok(i) = find_volume(volumes, vid) else {
        return Err(Refusal::NoVolume);
    };
    Ok(snapshot_of(commits, volume_at(volumes, i)))
}

// ---- latest check

// The LSN of a log's latest commit, which may be missing.
fn latest_of(commits: &[u8], log: LogId) -> Option<Lsn>
    requires { commits_ok commits.now ≡ true }
    ensures { maybe_lsn_says result ≡ latest_lsn (commits_in commits.now) log }
{
    let Some(i) = commits::latest(commits, log) else {
        return None;
    };
    Some(Lsn(lsn_at(commits, i)))
}

// Whether an LSN is there and is that one.
fn is_at(o: Option<Lsn>, lsn: Lsn) -> bool
    ensures { result ≡ is_at (maybe_lsn_says o) lsn.0 }
{
    match o {
        None => false,
        Some(n) => n.0 == lsn.0,
    }
}

// Whether a range names the local log and ends at its head, or names the remote and ends at sync.remote; the local log is tested first.
fn range_latest(v: Volume, head: Option<Lsn>, range: LogRange) -> bool
    ensures { result ≡ latest_by (volume_says v) (maybe_lsn_says head) (range_says range) }
{
    let local = v.local;
    let remote = v.remote;
    let sync = v.sync;
    let log = range.log;
    let end = range.end;
    if id::same(local, log) {
        return is_at(head, end);
    }
    if !id::same(remote, log) {
        return false;
    }
    is_at(remote_of(sync), end)
}

// Whether a range names the remote and not the local log.
fn is_remote(v: Volume, range: LogRange) -> bool
    ensures { result ≡ is_remote (volume_says v) (range_says range) }
{
    let local = v.local;
    let remote = v.remote;
    let log = range.log;
    if id::same(local, log) {
        return false;
    }
    id::same(remote, log)
}

// Whether each of the first ranges of a path is latest.
fn all_latest(v: Volume, head: Option<Lsn>, path: [LogRange; 8], len: usize) -> bool
    requires { len ≤ 8 }
    ensures { result ≡ all (λ x. latest_by (volume_says v) (maybe_lsn_says head) (range_says x)) (take len path) }
{
    path[..len]
        .iter()
        .all(|range| range_latest(v, head, *range))
}

// Whether one of the first ranges of a path is remote.
fn any_remote(v: Volume, path: [LogRange; 8], len: usize) -> bool
    requires { len ≤ 8 }
    ensures { result ≡ any (λ x. is_remote (volume_says v) (range_says x)) (take len path) }
{
    path[..len].iter().any(|range| is_remote(v, *range))
}

// Whether there is neither a head nor a sync.
fn is_fresh(head: Option<Lsn>, sync: Option<SyncPoint>) -> bool
    ensures { result ≡ is_none (maybe_lsn_says head) && is_none (sync_says sync) }
{
    match head {
        None => match sync {
            None => true,
            Some(_) => false,
        },
        Some(_) => false,
    }
}

// Whether a remote range is there exactly if there is a sync.
fn fits_sync(found: bool, sync: Option<SyncPoint>) -> bool
    ensures { result ≡ same_answer found (is_some (sync_says sync)) }
{
    match sync {
        None => !found,
        Some(_) => found,
    }
}

// Whether a snapshot is a volume's latest.
pub fn is_latest(commits: &[u8], v: Volume, s: Snapshot) -> bool
    requires { (commits_ok commits.now ≡ true) × (s.len ≤ 8) }
    ensures { result ≡ is_latest (commits_in commits.now) (volume_says v) (snapshot_says s) }
{
    let local = v.local;
    let sync = v.sync;
    let len = s.len;
    let path = s.path;
    let head = latest_of(commits, local);
    if len == 0 {
        return is_fresh(head, sync);
    }
    if !all_latest(v, head, path, len) {
        return false;
    }
    fits_sync(any_remote(v, path, len), sync)
}

// Whether a snapshot is the latest of the volume of an identifier: 20, 1, 2, 3, 4.
pub fn latest_check(
    volumes: &[u8],
    commits: &[u8],
    vid: VolumeId,
    s: Snapshot,
) -> Result<bool, Refusal>
    ensures { yes_says result ≡ lent (volumes_ok volumes.now && commits_ok commits.now) (checked (volumes_in volumes.now) (commits_in commits.now) vid s) }
{
    if !volumes_formed(volumes) {
        return Err(Refusal::TableForm);
    }
    if !commits_formed(commits) {
        return Err(Refusal::TableForm);
    }
    if !s.has_lsns() {
        return Err(Refusal::Zero);
    }
    if !s.is_ordered() {
        return Err(Refusal::Reversed);
    }
    if !s.is_formed() {
        return Err(Refusal::Form);
    }
    let Ok(i) = find_volume(volumes, vid) else {
        return Err(Refusal::NoVolume);
    };
    if is_latest(commits, volume_at(volumes, i), s) {
        return Ok(true);
    }
    Ok(false)
}
