// The walk of a snapshot, and the frames that it lacks.
ghost use Rattle.std.specs.Prelude.{◌≡◌, ◌&&◌};
ghost use Rattle.rules.specs.Walk.{walk, missing_frames};
ghost use Rattle.layout.specs.Values.{part_bytes};
ghost use Rattle.layout.specs.Tables.{commits_in, commits_ok, presence_in, presence_ok};
ghost use Rattle.layout.specs.Lent.{lent};
ghost use Rattle.resultlists.specs.Lists.{slots_in, list_left};
ghost use Rattle.resultlists.specs.Snapshots.{on_snapshot};
ghost use Rattle.walkcalls.specs.Items.{item_bytes};

use arguments::Reply;

// The walk of a snapshot into a list of items, and their number: 20, 1, 2, 3, 19.
#[unsafe(no_mangle)]
pub extern "C" fn sigatuda_walk(
    commits: &[u8],
    snapshot: &[u8],
    list: &mut [u8],
    items: &mut u32,
) -> Reply
    ensures { (result, (list.new, items.new)) ≡ list_left item_bytes list.old items.old (lent (commits_ok commits.now) (on_snapshot snapshot.now (walk (commits_in commits.now) (slots_in item_bytes list.old)))) }
{
    boundary::walkcall::sigatuda_walk(commits, snapshot, list, items)
}

// The missing frames of a snapshot into a list of ranges, and their number: 20, 1, 2, 3, 19.
#[unsafe(no_mangle)]
pub extern "C" fn sigatuda_missing_frames(
    commits: &[u8],
    presence: &[u8],
    snapshot: &[u8],
    list: &mut [u8],
    items: &mut u32,
) -> Reply
    ensures { (result, (list.new, items.new)) ≡ list_left part_bytes list.old items.old (lent (commits_ok commits.now && presence_ok presence.now) (on_snapshot snapshot.now (missing_frames (commits_in commits.now) (presence_in presence.now) (slots_in part_bytes list.old)))) }
{
    boundary::walkcall::sigatuda_missing_frames(commits, presence, snapshot, list, items)
}
