// What copies of a path's commits add to the tables, counted before any is written: as many commits, an index entry for each page of each, and each checkpoint LSN once, where it is named last.
ghost use Rattle.std.specs.Prelude.{◌≡◌, ◌+◌, ◌*◌, ◌<◌, ◌≤◌, true, ◌++◌, map, length, nat_eq};
ghost use Rattle.std.proofs.Math.Option.{none};
ghost use Rattle.basics.specs.Orders.{log_lsn, log_page_lsn};
ghost use Rattle.rules.specs.Lists.{any};
ghost use Rattle.rules.specs.Records.{checkpoint_key, entry_key};
ghost use Rattle.rules.specs.Tables.{latest};
ghost use Rattle.rules.specs.Write.{checkpoints_of, entries_of, write_all, logs_fit};
ghost use Rattle.rules.specs.Room.{lacks, news, each};
ghost use Rattle.rules.specs.Walk.{path_commits};
ghost use Rattle.rules.specs.Copies.{renumbered};
ghost use Rattle.layout.specs.Tables.{commits_in, commits_ok, checkpoints_in, checkpoints_ok, index_in, index_ok};
ghost use Rattle.table.specs.Table.{count_of};
ghost use Rattle.commits.specs.Places.{commit_at};
ghost use Rattle.commitbytes.specs.Laid.{lsns_at};
ghost use Rattle.indexing.specs.Rows.{checkpoint};
ghost use Rattle.writecalls.specs.Written.{IsCommit, commit_in, logs_in};
ghost use Rattle.paths.specs.Left.{is_left, left_says};
ghost use Rattle.copies.specs.Copied.{lists};

use crate::copied_row;
use basics::id::LogId;
use commitbytes::fields;
use layout::{CHECKPOINT, COMMIT, ENTRY};
use octets::load64;
use paths::{Left, next_commit};
use setbytes::count_read;
use writecalls::commit_pages;

// ---- the index

// How many index entries of a commit the index lacks.
fn new_entries_of(index: &[u8], c: &[u8]) -> usize
    requires { (index_ok index.now ≡ true) × IsCommit c.now }
    ensures { (result ≡ news entry_key log_page_lsn (entries_of (commit_in c.now)) (index_in index.now).rows) × (result ≤ 2048) }
{
    let log = fields::commit_log(c, 0);
    let lsn = fields::commit_lsn(c, 0);
    let set = commit_pages(c);
    indexing::count_entries(index, log, lsn, set)
}

// How many index entries of the copies of the n commits left the index lacks.
fn new_entries(commits: &[u8], index: &[u8], left: Left, n: usize, log: LogId) -> usize
    requires commits_value { (commits_ok commits.now ≡ true) × (index_ok index.now ≡ true) }
    requires is_left { is_left left × (n ≡ length (path_commits (commits_in commits.now) (left_says left))) }
    ensures { result ≡ news entry_key log_page_lsn (each entries_of (renumbered log (path_commits (commits_in commits.now) (left_says left)))) (index_in index.now).rows }
{
    let mut rest = left;
    let mut total: usize = 0;
    for k in (0..n).rev() {
        let met = next_commit(commits, rest);
        let c = copied_row(commits, met.row, log, k as u64 + 1);
        total += new_entries_of(index, &c);
        rest = met.left;
    }
    total
}

// ---- the checkpoints

// Whether an LSN is among the n at a place.
fn listed_at(s: &[u8], at: usize, n: usize, lsn: u64) -> bool
    requires { at + n * 8 ≤ length s.now }
    ensures { result ≡ any (nat_eq lsn) (lsns_at n at s.now) }
{
    for i in 0..n {
        if load64(s, at + i * 8) == lsn {
            return true;
        }
    }
    false
}

// Whether a stored commit lists an LSN.
fn lists_lsn(commits: &[u8], row: usize, lsn: u64) -> bool
    requires { (commits_ok commits.now ≡ true) × (row < count_of commits.now) }
    ensures { result ≡ lists lsn (commit_at commits.now row) }
{
    let at = commits::row(commits, row) + 657;
    let n = count_read(commits, at, 8);
    listed_at(commits, at + 1, n, lsn)
}

// Whether one of the n commits left lists an LSN.
fn listed_later(commits: &[u8], left: Left, n: usize, lsn: u64) -> bool
    requires commits_value { (commits_ok commits.now ≡ true) × is_left left }
    requires n_value { n ≡ length (path_commits (commits_in commits.now) (left_says left)) }
    ensures { result ≡ any (lists lsn) (path_commits (commits_in commits.now) (left_says left)) }
{
    let mut rest = left;
    for _k in (0..n).rev() {
        let met = next_commit(commits, rest);
        if lists_lsn(commits, met.row, lsn) {
            return true;
        }
        rest = met.left;
    }
    false
}

// 1 where a checkpoint is new and not named again: not by the m LSNs at a place, not by the k commits left, and not stored; else 0.
fn new_checkpoint(
    commits: &[u8],
    checkpoints: &[u8],
    at: usize,
    m: usize,
    left: Left,
    k: usize,
    log: LogId,
    lsn: u64,
) -> usize
    requires commits_value { (commits_ok commits.now ≡ true) × (checkpoints_ok checkpoints.now ≡ true) × (at + m * 8 ≤ length commits.now) }
    requires is_left { is_left left × (k ≡ length (path_commits (commits_in commits.now) (left_says left))) }
    ensures { result ≡ lacks checkpoint_key log_lsn (log, lsn) (map (checkpoint log) (lsns_at m at commits.now) ++ (each checkpoints_of (renumbered log (path_commits (commits_in commits.now) (left_says left))) ++ (checkpoints_in checkpoints.now).rows)) }
{
    if listed_at(commits, at, m, lsn) {
        return 0;
    }
    if listed_later(commits, left, k, lsn) {
        return 0;
    }
    let key = layout::log_key(log, lsn);
    batch::lacking(checkpoints, CHECKPOINT, CHECKPOINT, &key)
}

// How many checkpoints of a stored commit's copy are new, of those that neither the k commits left name nor the table holds.
fn new_checkpoints_of(
    commits: &[u8],
    checkpoints: &[u8],
    row: usize,
    left: Left,
    k: usize,
    log: LogId,
) -> usize
    requires commits_value { (commits_ok commits.now ≡ true) × (checkpoints_ok checkpoints.now ≡ true) × (row < count_of commits.now) }
    requires is_left { is_left left × (k ≡ length (path_commits (commits_in commits.now) (left_says left))) }
    ensures { (result ≡ news checkpoint_key log_lsn (map (checkpoint log) (commit_at commits.now row).checkpoints) (each checkpoints_of (renumbered log (path_commits (commits_in commits.now) (left_says left))) ++ (checkpoints_in checkpoints.now).rows)) × (result ≤ 8) }
{
    let at = commits::row(commits, row) + 657;
    let n = count_read(commits, at, 8);
    let mut from = at + 1;
    let mut total: usize = 0;
    for m in (0..n).rev() {
        let lsn = load64(commits, from);
        from += 8;
        total += new_checkpoint(commits, checkpoints, from, m, left, k, log, lsn);
    }
    total
}

// How many checkpoints the copies of the n commits left add.
fn new_checkpoints(commits: &[u8], checkpoints: &[u8], left: Left, n: usize, log: LogId) -> usize
    requires commits_value { (commits_ok commits.now ≡ true) × (checkpoints_ok checkpoints.now ≡ true) }
    requires is_left { is_left left × (n ≡ length (path_commits (commits_in commits.now) (left_says left))) }
    ensures { result ≡ news checkpoint_key log_lsn (each checkpoints_of (renumbered log (path_commits (commits_in commits.now) (left_says left)))) (checkpoints_in checkpoints.now).rows }
{
    let mut rest = left;
    let mut total: usize = 0;
    for k in (0..n).rev() {
        let met = next_commit(commits, rest);
        rest = met.left;
        total += new_checkpoints_of(commits, checkpoints, met.row, rest, k, log);
    }
    total
}

// ---- the three tables

// Whether the tables have room for copies of the n commits left in a log that has no commit.
pub fn room_for_copies(
    commits: &[u8],
    checkpoints: &[u8],
    index: &[u8],
    left: Left,
    n: usize,
    log: LogId,
) -> bool
    requires commits_value { (commits_ok commits.now ≡ true) × (checkpoints_ok checkpoints.now ≡ true) × (index_ok index.now ≡ true) }
    requires is_left { is_left left × (n ≡ length (path_commits (commits_in commits.now) (left_says left))) × (latest (commits_in commits.now) log ≡ none) }
    ensures { result ≡ logs_fit (write_all (logs_in commits.now checkpoints.now index.now) (renumbered log (path_commits (commits_in commits.now) (left_says left)))) }
{
    if !table::room_for(commits, COMMIT, n) {
        return false;
    }
    if !table::room_for(index, ENTRY, new_entries(commits, index, left, n, log)) {
        return false;
    }
    table::room_for(
        checkpoints,
        CHECKPOINT,
        new_checkpoints(commits, checkpoints, left, n, log),
    )
}
