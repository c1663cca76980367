// The commits of a snapshot's path as places in the table of commits: a run of places for each range, in path order.
ghost use Rattle.std.specs.Prelude.{◌≡◌, ◌≤◌, true, length, nat_le};
ghost use Rattle.layout.specs.Tables.{commits_ok};
ghost use Rattle.volume.specs.Snapshots.{snapshot_says};
ghost use Rattle.gifts.specs.Paths.{places_in, place_at, PathOf};

use commits::range_run;
use table::Run;
use volume::snapshot::Snapshot;

// A run of places for each of at most 8 ranges; the runs past them are empty.
#[derive(Clone, Copy)]
pub struct Path {
    pub runs: [Run; 8],
}

impl Path {
    // Where the commits of a snapshot stand, range by range.
    pub fn of(commits: &[u8], s: Snapshot) -> Path
        requires { (commits_ok commits.now ≡ true) × (s.len ≤ 8) }
        ensures { PathOf commits.now (snapshot_says s).path result.runs }
    {
        let none = Run { from: 0, to: 0 };
        let mut runs = [none; 8];
        for i in 0..s.len {
            let range = s.path[i];
            runs[i] = range_run(commits, range.log, range.start.0, range.end.0);
        }
        Path { runs }
    }

    // The place of the path's commit of a number, counted from 0, or none.
    pub fn at(self, k: usize) -> Option<usize>
        ensures { result ≡ place_at k (places_in self.runs) }
    {
        let mut left = k;
        for run in self.runs {
            let n = run.to.saturating_sub(run.from);
            if left < n {
                return Some(run.from + left);
            }
            left -= n;
        }
        None
    }

    // Whether the path has at most so many commits.
    pub fn at_most(self, slots: usize) -> bool
        ensures { result ≡ nat_le (length (places_in self.runs)) slots }
    {
        let mut left = slots;
        for run in self.runs {
            let n = run.to.saturating_sub(run.from);
            if left < n {
                return false;
            }
            left -= n;
        }
        true
    }
}
