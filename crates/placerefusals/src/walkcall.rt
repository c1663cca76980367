// The walk, and missing frames.
ghost use Rattle.refusals.specs.Refusals.{AsFound};

use arguments::Reply;
use boundary::walkcall::{sigatuda_missing_frames, sigatuda_walk};

// Walk: refused, it leaves the list and the number of its items as found.
pub fn walk(commits: &[u8], snapshot: &[u8], list: &mut [u8], items: &mut u32) -> Reply
    ensures as_found { AsFound result list.old list.new }
    ensures as_found_2 { AsFound result items.old items.new }
{
    sigatuda_walk(commits, snapshot, list, items)
}

// Missing frames: refused, it leaves the list and the number of its items as found.
pub fn missing_frames(
    commits: &[u8],
    presence: &[u8],
    snapshot: &[u8],
    list: &mut [u8],
    items: &mut u32,
) -> Reply
    ensures as_found { AsFound result list.old list.new }
    ensures as_found_2 { AsFound result items.old items.new }
{
    sigatuda_missing_frames(commits, presence, snapshot, list, items)
}
