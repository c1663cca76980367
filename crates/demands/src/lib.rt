// What the demands say of the exported functions: each function here makes calls, and has the demand as its contract.
#![tactic(auto)]

pub mod saving;
pub mod syncing;

ghost use Rattle.std.specs.Prelude.{◌≡◌, ◌≤◌, ◌≢◌};
ghost use Rattle.arguments.specs.Replies.{none_under};
ghost use Rattle.arguments.specs.Snapshots.{snapshot_in};
ghost use Rattle.layout.specs.Tables.{commits_in};
ghost use Rattle.demands.specs.Demand3.{Supposed, Finds, Gives};

use arguments::Reply;
use boundary::searchcall::sigatuda_search;
use boundary::walkcall::sigatuda_walk;

// What a search and a walk answered.
#[derive(Clone, Copy)]
pub struct Answers {
    pub found: Reply,
    pub walked: Reply,
}

// Demand 3: a search for a page and the walk of the same snapshot, over one table of commits and its exact index. Search names the highest commit that holds the page of the earliest range that has one,
// or nothing where there is none; the walk, its list long enough, gives a page within the page count to exactly that commit, and to none where search finds nothing.
pub fn search_and_walk(
    commits: &[u8],
    index: &[u8],
    snapshot: &[u8],
    page: u32,
    out: &mut [u8],
    list: &mut [u8],
    items: &mut u32,
) -> Answers
    requires { Supposed commits.now index.now snapshot.now out.old page }
    ensures finds { Finds (commits_in commits.now) (snapshot_in snapshot.now).path page out.old (result.found, out.new) }
    ensures gives { page ≤ (snapshot_in snapshot.now).count → (result.walked ≢ none_under 19) → Gives (commits_in commits.now) (snapshot_in snapshot.now).path page list.old (result.walked, (list.new, items.new)) out.old (result.found, out.new) }
{
    let found = sigatuda_search(commits, index, snapshot, page, out);
    let walked = sigatuda_walk(commits, snapshot, list, items);
    Answers { found, walked }
}
