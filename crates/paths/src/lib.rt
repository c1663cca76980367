// The commits of a path, one at a time: the ranges in path order, LSN falling. What is left of a path is a path again, its first range lowered below the commit that was met, so that
// it stays good while commits of other logs are stored.
#![tactic(auto)]

ghost use Rattle.std.specs.Prelude.{◌≡◌, ◌+◌, ◌-◌, ◌<◌, ◌≤◌, true, length};
ghost use Rattle.rules.specs.Lists.{first};
ghost use Rattle.rules.specs.Walk.{in_range, path_commits};
ghost use Rattle.volume.specs.Snapshots.{range_says};
ghost use Rattle.layout.specs.Tables.{commits_in, commits_ok};
ghost use Rattle.commits.specs.Places.{PlaceOf};
ghost use Rattle.paths.specs.Left.{leading, is_left, left_says, left_without, Meets};

use basics::id;
use basics::id::LogId;
use basics::lsn::Lsn;
use commits::{lsn_at, range_run};
use volume::snapshot::LogRange;

// What is left of a path: its ranges from `at` up to `len`.
#[derive(Clone, Copy)]
pub struct Left {
    pub path: [LogRange; 8],
    pub at: usize,
    pub len: usize,
}

// A commit of a path, by its row, and what is left of the path after it.
#[derive(Clone, Copy)]
pub struct Met {
    pub row: usize,
    pub left: Left,
}

// Where the first commit of a range stands, the one with its highest LSN.
fn first_in(commits: &[u8], range: LogRange) -> Option<usize>
    requires { commits_ok commits.now ≡ true }
    ensures { PlaceOf commits.now (first (in_range (range_says range)) (commits_in commits.now).rows) result }
{
    let log = range.log;
    let run = range_run(commits, log, range.start.0, range.end.0);
    let from = run.from;
    if run.to <= from {
        return None;
    }
    Some(from)
}

// The number of the first range left that has a commit, and `len` where none has.
fn next_range(commits: &[u8], left: Left) -> usize
    requires { (commits_ok commits.now ≡ true) × is_left left }
    ensures { result ≡ left.at + leading (commits_in commits.now) (left_says left) }
{
    for at in left.at..left.len {
        let range = left.path[at];
        let None = first_in(commits, range) else {
            return at;
        };
    }
    left.len
}

// The next commit of what is left, which has one.
pub fn next_commit(commits: &[u8], left: Left) -> Met
    requires commits_value { (commits_ok commits.now ≡ true) × is_left left }
    requires nonzero { 0 < length (path_commits (commits_in commits.now) (left_says left)) }
    ensures { Meets commits.now left result }
{
    let len = left.len;
    let at = next_range(commits, left);
    let mut path = left.path;
    let range = path[at];
    let log = range.log;
    let start = range.start;
    let run = range_run(commits, log, start.0, range.end.0);
    let row = run.from;
    let end = Lsn(lsn_at(commits, row) - 1);
    path[at] = LogRange { log, start, end };
    Met {
        row,
        left: Left { path, at, len },
    }
}

// How many commits are left.
pub fn commits_left(commits: &[u8], left: Left) -> usize
    requires { (commits_ok commits.now ≡ true) × is_left left }
    ensures { result ≡ length (path_commits (commits_in commits.now) (left_says left)) }
{
    let mut n: usize = 0;
    for at in left.at..left.len {
        let range = left.path[at];
        let run = range_run(commits, range.log, range.start.0, range.end.0);
        n += run.to.saturating_sub(run.from);
    }
    n
}

// The ranges of a path that do not name a log, moved to its front.
pub fn without(path: [LogRange; 8], len: usize, log: LogId) -> Left
    requires { len ≤ 8 }
    ensures { result ≡ left_without path len log }
{
    let mut kept = path;
    let mut n: usize = 0;
    for i in 0..len {
        let range = path[i];
        if !id::same(log, range.log) {
            kept[n] = range;
            n += 1;
        }
    }
    Left {
        path: kept,
        at: 0,
        len: n,
    }
}
