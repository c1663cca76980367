// The walk of a snapshot into a lent list: an item for each commit that gets pages. The items are counted before the first is put, unless the list has room for every commit of the path.
#![tactic(auto)]

ghost use Rattle.std.specs.Prelude.{◌≡◌, ◌+◌, ◌/◌, ◌<◌, ◌≤◌, true, length, nat_le};
ghost use Rattle.octets.specs.Bytes.{put};
ghost use Rattle.octets.specs.Flat.{flat};
ghost use Rattle.pageset.specs.Sets.{normal_form};
ghost use Rattle.rules.specs.Lists.{is_some};
ghost use Rattle.rules.specs.Write.{pages_of};
ghost use Rattle.rules.specs.Walk.{walk as walk_rule};
ghost use Rattle.table.specs.Table.{count_of};
ghost use Rattle.layout.specs.Tables.{commits_in, commits_ok};
ghost use Rattle.layout.specs.Lent.{lent};
ghost use Rattle.commits.specs.Places.{commit_at};
ghost use Rattle.masks.specs.Masks.{given};
ghost use Rattle.gifts.specs.Paths.{places_in, Inside};
ghost use Rattle.gifts.specs.Steps.{item_at, items_from};
ghost use Rattle.resultlists.specs.Lists.{slots_in, list_left};
ghost use Rattle.resultlists.specs.Snapshots.{on_snapshot};
ghost use Rattle.walkcalls.specs.Items.{item_bytes};

use arguments::Reply;
use arguments::replies::refused;
use arguments::snapshots::snapshot_arg;
use basics::page_count::PageCount;
use commits::{commits_formed, lsn_at, row};
use gifts::paths::Path;
use gifts::{next_gift, put_gift};
use layout::SEGMENT;
use notes::Notes;
use octets::store64;
use resultlists::{copy, snapshot_given};

// An entry of the list: log, LSN, segment, gift.
const ITEM: usize = 1003;

// The item of record i, whose segment is there, and its gift, which is given by masks, over the entry at a place of the list.
fn put_item(list: &mut [u8], at: usize, commits: &[u8], i: usize, left: &[u64; 32])
    requires commits_value { (commits_ok commits.now ≡ true) × (i < count_of commits.now) × (is_some (commit_at commits.now i).segment ≡ true) }
    requires left_value { (normal_form (given (pages_of (commit_at commits.now i).segment) left.now) ≡ true) × (at + 1003 ≤ length list.old) }
    ensures { list.new ≡ put at (item_bytes.spell (item_at commits.now i (given (pages_of (commit_at commits.now i).segment) left.now))) list.old }
{
    let from = row(commits, i);
    copy(list, at, commits, from + 1, 16);
    store64(list, at + 16, lsn_at(commits, i));
    copy(list, at + 24, commits, from + 63, SEGMENT);
    put_gift(list, at + 618, commits, i, left);
}

// How many items the walk of a path has.
fn count_items(commits: &[u8], path: Path, count: PageCount) -> usize
    requires { (commits_ok commits.now ≡ true) × Inside commits.now (places_in path.runs) }
    ensures { result ≡ length (items_from commits.now count.0 (places_in path.runs) 0) }
{
    let mut notes = Notes::new();
    let mut left = [0u64; 32];
    let mut k: usize = 0;
    let mut n: usize = 0;
    loop {
        let step = next_gift(commits, path, count, k, &mut notes, &mut left);
        let at = step.at;
        let Some(_) = at else {
            return n;
        };
        n += 1;
        k = step.next;
    }
}

// Whether so many places are enough for the items of a path. Each commit has at most one, so they are not counted where there is a place for every commit.
fn has_room(commits: &[u8], path: Path, count: PageCount, slots: usize) -> bool
    requires { (commits_ok commits.now ≡ true) × Inside commits.now (places_in path.runs) }
    ensures { result ≡ nat_le (length (items_from commits.now count.0 (places_in path.runs) 0)) slots }
{
    if path.at_most(slots) {
        return true;
    }
    count_items(commits, path, count) <= slots
}

// The items of a path, one after another from the start of the list on, and their number.
fn put_items(commits: &[u8], path: Path, count: PageCount, list: &mut [u8]) -> usize
    requires commits_value { (commits_ok commits.now ≡ true) × Inside commits.now (places_in path.runs) }
    requires runs_in_bounds { length (items_from commits.now count.0 (places_in path.runs) 0) ≤ length list.old / 1003 }
    ensures value { (result ≡ length (items_from commits.now count.0 (places_in path.runs) 0)) × (result ≤ 524280) }
    ensures list_after { list.new ≡ put 0 (flat item_bytes.spell (items_from commits.now count.0 (places_in path.runs) 0)) list.old }
{
    let mut notes = Notes::new();
    let mut left = [0u64; 32];
    let mut k: usize = 0;
    let mut n: usize = 0;
    loop {
        let step = next_gift(commits, path, count, k, &mut notes, &mut left);
        let at = step.at;
        let Some(i) = at else {
            return n;
        };
        put_item(list, n * ITEM, commits, i, &left);
        n += 1;
        k = step.next;
    }
}

// The walk of a snapshot: ranges in path order, LSN falling, each commit with the pages that no earlier one took: 20, 1, 2, 3, 19.
pub fn walk(commits: &[u8], snapshot: &[u8], list: &mut [u8], items: &mut u32) -> Reply
    ensures { (result, (list.new, items.new)) ≡ list_left item_bytes list.old items.old (lent (commits_ok commits.now) (on_snapshot snapshot.now (walk_rule (commits_in commits.now) (slots_in item_bytes list.old)))) }
{
    if !commits_formed(commits) {
        return Reply { code: 20, found: 0 };
    }
    if let Err(refusal) = snapshot_given(snapshot) {
        return refused(refusal);
    }
    let s = snapshot_arg(snapshot);
    let path = Path::of(commits, s);
    let count = s.count;
    if !has_room(commits, path, count, list.len() / ITEM) {
        return Reply { code: 19, found: 0 };
    }
    let n = put_items(commits, path, count, list);
    *items = n as u32;
    Reply { code: 0, found: 1 }
}
