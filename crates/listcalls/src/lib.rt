// The calls that answer a list: volumes, tags, a range's stored LSNs, a snapshot's commits. Each answers on every input, 20 first and 19 last. The entries are counted
// before the first is put, so that a list that is too short stays as found.
#![tactic(auto)]

ghost use Rattle.std.specs.Prelude.{◌≡◌, ◌+◌, ◌-◌, ◌*◌, ◌<◌, ◌≤◌, true, map, length};
ghost use Rattle.octets.specs.Bytes.{put};
ghost use Rattle.octets.specs.Flat.{flat};
ghost use Rattle.rules.specs.Reads.{volume_list, tag_list, stored_lsns};
ghost use Rattle.rules.specs.Walk.{snapshot_commits};
ghost use Rattle.table.specs.Table.{count_of};
ghost use Rattle.layout.specs.Codecs.{number};
ghost use Rattle.layout.specs.Records.{volume_bytes, tag_bytes, commit_bytes};
ghost use Rattle.layout.specs.Tables.{volumes_in, volumes_ok, tags_in, tags_ok, commits_in, commits_ok};
ghost use Rattle.layout.specs.Lent.{lent};
ghost use Rattle.rows.specs.Lookups.{stretch};
ghost use Rattle.volume.specs.Snapshots.{range_says};
ghost use Rattle.resultlists.specs.Lists.{slots_in, list_left};
ghost use Rattle.resultlists.specs.Snapshots.{on_snapshot};
ghost use Rattle.listcalls.specs.Runs.{rows_put, range_commits, StandsAt, first_commits};

use arguments::Reply;
use arguments::replies::refused;
use arguments::snapshots::snapshot_arg;
use basics::id::LogId;
use basics::lsn::Lsn;
use commits::commits_formed;
use layout::{COMMIT, TAG, VOLUME};
use resultlists::snapshot_given;
use table::Run;
use tags::tags_formed;
use volume::snapshot::LogRange;
use volumes::volumes_formed;

// An entry of a list of LSNs.
const LSN: usize = 8;

// ---- whole tables

// All rows of a table as a list: 19.
fn put_rows(t: &[u8], stride: usize, list: &mut [u8], items: &mut u32) -> Reply
    requires { (0 < stride) × (2 ≤ length t.now) × (2 + count_of t.now * stride ≤ length t.now) }
    ensures { (result, (list.new, items.new)) ≡ rows_put stride t.now list.old items.old }
{
    let n = table::count(t);
    if list.len() / stride < n {
        return Reply { code: 19, found: 0 };
    }
    resultlists::copy(list, 0, t, 2, n * stride);
    *items = n as u32;
    Reply { code: 0, found: 1 }
}

// The volumes, in key order: 20, 19.
pub fn volume_list(volumes: &[u8], list: &mut [u8], items: &mut u32) -> Reply
    ensures { (result, (list.new, items.new)) ≡ list_left volume_bytes list.old items.old (lent (volumes_ok volumes.now) (volume_list (volumes_in volumes.now) (slots_in volume_bytes list.old))) }
{
    if !volumes_formed(volumes) {
        return Reply { code: 20, found: 0 };
    }
    put_rows(volumes, VOLUME, list, items)
}

// The tags, in key order: 20, 19.
pub fn tag_list(tags: &[u8], list: &mut [u8], items: &mut u32) -> Reply
    ensures { (result, (list.new, items.new)) ≡ list_left tag_bytes list.old items.old (lent (tags_ok tags.now) (tag_list (tags_in tags.now) (slots_in tag_bytes list.old))) }
{
    if !tags_formed(tags) {
        return Reply { code: 20, found: 0 };
    }
    put_rows(tags, TAG, list, items)
}

// ---- the commits of a range

// Where the commits of a range stand.
fn places_of(commits: &[u8], range: LogRange) -> Run
    requires { commits_ok commits.now ≡ true }
    ensures { StandsAt commits.now (range_says range) result.from result.to }
{
    let log = range.log;
    let run = commits::range_run(commits, log, range.start.0, range.end.0);
    let from = run.from;
    let to = run.to;
    if from < to {
        return run;
    }
    Run { from, to: from }
}

// The LSNs of the commits from one place up to another, 8 bytes each, from the start of the list on.
fn put_lsns(commits: &[u8], from: usize, to: usize, list: &mut [u8])
    requires { (commits_ok commits.now ≡ true) × (from ≤ to) × (to ≤ count_of commits.now) × ((to - from) * 8 ≤ length list.old) }
    ensures { list.new ≡ put 0 (flat (number 8).spell (map (λ c. c.lsn) (stretch from to (commits_in commits.now).rows))) list.old }
{
    for i in from..to {
        octets::store64(list, (i - from) * LSN, commits::lsn_at(commits, i));
    }
}

// The stored LSNs of a log from `end` down to `start`: 20, 1, 2, 19.
pub fn stored_lsns(
    commits: &[u8],
    log: LogId,
    start: Lsn,
    end: Lsn,
    list: &mut [u8],
    items: &mut u32,
) -> Reply
    ensures { (result, (list.new, items.new)) ≡ list_left (number 8) list.old items.old (lent (commits_ok commits.now) (stored_lsns (commits_in commits.now) (slots_in (number 8) list.old) (record { log = log; start = start.0; end = end.0 }))) }
{
    if !commits_formed(commits) {
        return Reply { code: 20, found: 0 };
    }
    let range = LogRange { log, start, end };
    if !range.has_lsns() {
        return Reply { code: 1, found: 0 };
    }
    if !range.is_ordered() {
        return Reply { code: 2, found: 0 };
    }
    let run = places_of(commits, range);
    let from = run.from;
    let to = run.to;
    let n = to - from;
    if list.len() / LSN < n {
        return Reply { code: 19, found: 0 };
    }
    put_lsns(commits, from, to, list);
    *items = n as u32;
    Reply { code: 0, found: 1 }
}

// ---- the commits of a path

// How many commits the first ranges of a path have, one that two ranges have twice.
fn count_commits(commits: &[u8], path: [LogRange; 8], len: usize) -> usize
    requires { (commits_ok commits.now ≡ true) × (len ≤ 8) }
    ensures { (result ≡ length (first_commits commits.now len path)) × (result ≤ len * 65535) }
{
    let mut n: usize = 0;
    for i in 0..len {
        let run = places_of(commits, path[i]);
        n += run.to - run.from;
    }
    n
}

// The commits of a range over a list's entries from the k-th on; the number of entries after them.
fn put_range(commits: &[u8], range: LogRange, list: &mut [u8], k: usize) -> usize
    requires { (commits_ok commits.now ≡ true) × ((k + length (range_commits commits.now (range_says range))) * 722 ≤ length list.old) }
    ensures { (result ≡ k + length (range_commits commits.now (range_says range))) × (list.new ≡ put (k * 722) (flat commit_bytes.spell (range_commits commits.now (range_says range))) list.old) }
{
    let run = places_of(commits, range);
    let from = run.from;
    let n = run.to - run.from;
    resultlists::copy(list, k * COMMIT, commits, 2 + from * COMMIT, n * COMMIT);
    k + n
}

// The commits of the first ranges of a path, range by range, from the start of the list on.
fn put_commits(commits: &[u8], path: [LogRange; 8], len: usize, list: &mut [u8])
    requires { (commits_ok commits.now ≡ true) × (len ≤ 8) × (length (first_commits commits.now len path) * 722 ≤ length list.old) }
    ensures { list.new ≡ put 0 (flat commit_bytes.spell (first_commits commits.now len path)) list.old }
{
    let mut k: usize = 0;
    for i in 0..len {
        k = put_range(commits, path[i], list, k);
    }
}

// The commits of a snapshot, ranges in path order, LSN falling: 20, 1, 2, 3, 19.
pub fn snapshot_commits(commits: &[u8], snapshot: &[u8], list: &mut [u8], items: &mut u32) -> Reply
    ensures { (result, (list.new, items.new)) ≡ list_left commit_bytes list.old items.old (lent (commits_ok commits.now) (on_snapshot snapshot.now (snapshot_commits (commits_in commits.now) (slots_in commit_bytes list.old)))) }
{
    if !commits_formed(commits) {
        return Reply { code: 20, found: 0 };
    }
    if let Err(refusal) = snapshot_given(snapshot) {
        return refused(refusal);
    }
    let s = snapshot_arg(snapshot);
    let path = s.path;
    let len = s.len;
    let n = count_commits(commits, path, len);
    if list.len() / COMMIT < n {
        return Reply { code: 19, found: 0 };
    }
    put_commits(commits, path, len, list);
    *items = n as u32;
    Reply { code: 0, found: 1 }
}
