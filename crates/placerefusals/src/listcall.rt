// Lists.
ghost use Rattle.refusals.specs.Refusals.{AsFound};

use arguments::Reply;
use boundary::listcall::{
    sigatuda_snapshot_commits, sigatuda_stored_lsns, sigatuda_tag_list, sigatuda_volume_list,
};

// The list of volumes: refused, it leaves the list and the number of its items as found.
pub fn volume_list(volumes: &[u8], list: &mut [u8], items: &mut u32) -> Reply
    ensures as_found { AsFound result list.old list.new }
    ensures as_found_2 { AsFound result items.old items.new }
{
    sigatuda_volume_list(volumes, list, items)
}

// The list of tags: refused, it leaves the list and the number of its items as found.
pub fn tag_list(tags: &[u8], list: &mut [u8], items: &mut u32) -> Reply
    ensures as_found { AsFound result list.old list.new }
    ensures as_found_2 { AsFound result items.old items.new }
{
    sigatuda_tag_list(tags, list, items)
}

// The stored LSNs of a log: refused, it leaves the list and the number of its items as found.
pub fn stored_lsns(
    commits: &[u8],
    log: &[u8; 16],
    start: u64,
    end: u64,
    list: &mut [u8],
    items: &mut u32,
) -> Reply
    ensures as_found { AsFound result list.old list.new }
    ensures as_found_2 { AsFound result items.old items.new }
{
    sigatuda_stored_lsns(commits, log, start, end, list, items)
}

// The commits of a snapshot: refused, it leaves the list and the number of its items as found.
pub fn snapshot_commits(commits: &[u8], snapshot: &[u8], list: &mut [u8], items: &mut u32) -> Reply
    ensures as_found { AsFound result list.old list.new }
    ensures as_found_2 { AsFound result items.old items.new }
{
    sigatuda_snapshot_commits(commits, snapshot, list, items)
}
