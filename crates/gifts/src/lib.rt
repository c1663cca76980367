// The walk of a snapshot, gift by gift: a commit gets the pages of its set, up to the page count, that no earlier commit of the path holds. A gift is made as masks beside the windows of the
// commit's set, which stay where they stand. What the notes know of the pages that earlier commits hold is taken from it at once; only for what they do not know the earlier commits are asked.
#![tactic(auto)]

pub mod paths;

ghost use Rattle.std.specs.Prelude.{◌≡◌, ◌+◌, ◌*◌, ◌<◌, ◌≤◌, true, not, ◌∷◌, length};
ghost use Rattle.octets.specs.Bytes.{put};
ghost use Rattle.table.specs.Table.{count_of};
ghost use Rattle.pageset.specs.Sets.{rising, normal_form};
ghost use Rattle.rules.specs.Lists.{is_some};
ghost use Rattle.rules.specs.Pages.{is_empty};
ghost use Rattle.rules.specs.Write.{pages_of};
ghost use Rattle.rules.specs.Walk.{gift as gift_of};
ghost use Rattle.layout.specs.Values.{set_bytes};
ghost use Rattle.layout.specs.Tables.{commits_ok};
ghost use Rattle.setbytes.specs.Laid.{windows_at, set_laid};
ghost use Rattle.masks.specs.Masks.{given, less_masks, more_masks, no_masks};
ghost use Rattle.notes.specs.Known.{Known};
ghost use Rattle.commits.specs.Places.{commit_at};
ghost use Rattle.gifts.specs.Paths.{places_in, Inside, commits_at, before};
ghost use Rattle.gifts.specs.Steps.{step_from, GiftIn, found_from};
ghost use Rattle.gifts.specs.Held.{Clear, held_by, less_all, Small, AsSorted};

use basics::page_count::PageCount;
use commits::{has_segment_at, row};
use masks::{kept, less, more, none_left, put_given};
use notes::Notes;
use octets::{load32, load64};
use pageset::{PageSet, sets};
use paths::Path;
use setbytes::{count_read, set_read};

// What a step of the walk finds: where the next commit that gets pages stands, and the number of the commit after it on the path; or none.
#[derive(Clone, Copy)]
pub struct Step {
    pub at: Option<usize>,
    pub next: usize,
}

// What a step finds, with the gift of the commit as a set by value.
#[derive(Clone, Copy)]
pub struct Found {
    pub at: Option<usize>,
    pub next: usize,
    pub gift: PageSet,
}

// Whether the pages of record i are seen to have no window from lo to hi, by a look at their first and last window where they stand.
fn apart(commits: &[u8], i: usize, lo: u32, hi: u32) -> bool
    requires { (commits_ok commits.now ≡ true) × (i < count_of commits.now) }
    ensures { result ≡ true → Clear lo hi (pages_of (commit_at commits.now i).segment) }
{
    if !has_segment_at(commits, i) {
        return true;
    }
    let at = row(commits, i) + 79;
    let n = count_read(commits, at, 32);
    if n == 0 {
        return true;
    }
    if hi < load32(commits, at + 1) {
        return true;
    }
    load32(commits, at + 1 + (n - 1) * 12) < lo
}

// The masks of n windows without the pages of record i.
fn take_away(commits: &[u8], at: usize, n: usize, masks: &mut [u64; 32], i: usize)
    requires commits_value { (commits_ok commits.now ≡ true) × (i < count_of commits.now) }
    requires n_in_bounds { (at + n * 12 ≤ length commits.now) × (n ≤ 32) × (rising 0 (windows_at n at commits.now) ≡ true) }
    ensures { masks.new ≡ less_masks (windows_at n at commits.now) (pages_of (commit_at commits.now i).segment) masks.old }
{
    if !has_segment_at(commits, i) {
        return;
    }
    let from = row(commits, i) + 79;
    let m = count_read(commits, from, 32);
    less(commits, at, n, masks, from + 1, m);
}

// The masks of n windows, one at least, without the pages that the first k commits of the path hold. A commit whose windows lie apart is passed by.
fn ask_all(commits: &[u8], path: Path, k: usize, at: usize, n: usize, masks: &mut [u64; 32])
    requires commits_value { (commits_ok commits.now ≡ true) × Inside commits.now (places_in path.runs) × (k ≤ length (places_in path.runs)) }
    requires n_in_bounds { (at + n * 12 ≤ length commits.now) × (0 < n) × (n ≤ 32) × (rising 0 (windows_at n at commits.now) ≡ true) }
    ensures { masks.new ≡ less_all (windows_at n at commits.now) (before k (commits_at commits.now (places_in path.runs))) masks.old }
{
    let lo = load32(commits, at);
    let hi = load32(commits, at + (n - 1) * 12);
    for j in 0..k {
        let Some(i) = path.at(j) else {
            return;
        };
        if !apart(commits, i, lo, hi) {
            take_away(commits, at, n, masks, i);
            if none_left(masks, n) {
                return;
            }
        }
    }
}

// The pages of n windows up to a page count: those that the notes know to be free into `left`, and those of windows that they do not know into `ask`. The windows are noted.
fn sort_out(
    commits: &[u8],
    at: usize,
    n: usize,
    count: PageCount,
    notes: &mut Notes,
    left: &mut [u64; 32],
    ask: &mut [u64; 32],
)
    requires { (at + n * 12 ≤ length commits.now) × (n ≤ 32) × (normal_form (windows_at n at commits.now) ≡ true) }
    ensures as_sorted { AsSorted (windows_at n at commits.now) count.0 notes.old notes.new left.new ask.new }
    ensures small { (Small (windows_at n at commits.now) left.new) × Small (windows_at n at commits.now) ask.new }
{
    for i in 0..n {
        let index = load32(commits, at + i * 12);
        let mask = load64(commits, at + i * 12 + 4);
        let pages = kept(index, mask, count.0);
        match notes.note(index, mask) {
            Some(held) => {
                left[i] = pages & !held;
                ask[i] = 0;
            }
            None => {
                left[i] = 0;
                ask[i] = pages;
            }
        }
    }
}

// Adds to the masks of n windows, one at least, those of the pages asked for that the first k commits of the path do not hold. Whether there is then a page in them.
fn ask_rest(
    commits: &[u8],
    path: Path,
    k: usize,
    at: usize,
    n: usize,
    left: &mut [u64; 32],
    ask: &mut [u64; 32],
) -> bool
    requires commits_value { (commits_ok commits.now ≡ true) × Inside commits.now (places_in path.runs) × (k ≤ length (places_in path.runs)) }
    requires n_in_bounds { (at + n * 12 ≤ length commits.now) × (0 < n) × (n ≤ 32) × (rising 0 (windows_at n at commits.now) ≡ true) }
    ensures value { result ≡ not (no_masks n left.new) }
    ensures left_after { left.new ≡ more_masks n left.old (less_all (windows_at n at commits.now) (before k (commits_at commits.now (places_in path.runs))) ask.old) }
{
    ask_all(commits, path, k, at, n, ask);
    more(left, ask, n);
    !none_left(left, n)
}

// Makes the gift of the commit in record i, which is the path's commit of number k, as masks of its windows, and notes its pages. Whether there is a page in it.
fn make_gift(
    commits: &[u8],
    path: Path,
    count: PageCount,
    k: usize,
    i: usize,
    notes: &mut Notes,
    left: &mut [u64; 32],
) -> bool
    requires commits_value { (commits_ok commits.now ≡ true) × Inside commits.now (places_in path.runs) × (i < count_of commits.now) × (k ≤ length (places_in path.runs)) }
    requires known { Known (held_by (before k (commits_at commits.now (places_in path.runs)))) notes.old }
    ensures value { result ≡ not (is_empty (gift_of count.0 (before k (commits_at commits.now (places_in path.runs))) (commit_at commits.now i))) }
    ensures left_after { given (pages_of (commit_at commits.now i).segment) left.new ≡ gift_of count.0 (before k (commits_at commits.now (places_in path.runs))) (commit_at commits.now i) }
    ensures known_2 { Known (held_by (commit_at commits.now i ∷ before k (commits_at commits.now (places_in path.runs)))) notes.new }
{
    if !has_segment_at(commits, i) {
        return false;
    }
    let at = row(commits, i) + 79;
    let n = count_read(commits, at, 32);
    let mut ask = [0u64; 32];
    sort_out(commits, at + 1, n, count, notes, left, &mut ask);
    if none_left(&ask, n) {
        return !none_left(left, n);
    }
    ask_rest(commits, path, k, at + 1, n, left, &mut ask)
}

// The next commit of the path, from number `from` on, that gets pages; and the masks of its gift. The notes are those of the commits before number `from`, and become those of the commits before the next number.
pub fn next_gift(
    commits: &[u8],
    path: Path,
    count: PageCount,
    from: usize,
    notes: &mut Notes,
    left: &mut [u64; 32],
) -> Step
    requires commits_value { (commits_ok commits.now ≡ true) × Inside commits.now (places_in path.runs) }
    requires known { Known (held_by (before from (commits_at commits.now (places_in path.runs)))) notes.old }
    ensures value { result ≡ (step_from commits.now count.0 (places_in path.runs) from).0 }
    ensures gift_in { GiftIn commits.now result.at left.new (step_from commits.now count.0 (places_in path.runs) from).1 }
    ensures known_2 { Known (held_by (before result.next (commits_at commits.now (places_in path.runs)))) notes.new }
{
    let mut k = from;
    loop {
        let Some(i) = path.at(k) else {
            return Step { at: None, next: k };
        };
        let some = make_gift(commits, path, count, k, i, notes, left);
        k += 1;
        if some {
            return Step {
                at: Some(i),
                next: k,
            };
        }
    }
}

// The gift of record i, which has a segment, from its masks: as bytes over 385 of a list.
pub fn put_gift(list: &mut [u8], to: usize, commits: &[u8], i: usize, left: &[u64; 32])
    requires commits_value { (commits_ok commits.now ≡ true) × (i < count_of commits.now) × (is_some (commit_at commits.now i).segment ≡ true) }
    requires to_in_bounds { to + 385 ≤ length list.old }
    ensures { list.new ≡ put to (set_bytes.spell (given (pages_of (commit_at commits.now i).segment) left.now)) list.old }
{
    let at = row(commits, i) + 79;
    let n = count_read(commits, at, 32);
    put_given(list, to, commits, at + 1, n, left);
}

// And as a set by value, where it is in form.
fn gift_set(commits: &[u8], i: usize, left: &[u64; 32]) -> PageSet
    requires commits_value { (commits_ok commits.now ≡ true) × (i < count_of commits.now) × (is_some (commit_at commits.now i).segment ≡ true) }
    requires left_value { normal_form (given (pages_of (commit_at commits.now i).segment) left.now) ≡ true }
    ensures { result ≡ set_laid (given (pages_of (commit_at commits.now i).segment) left.now) }
{
    let mut form = [0u8; 385];
    put_gift(&mut form, 0, commits, i, left);
    set_read(&form, 0)
}

// The next commit of the path that gets pages, as `next_gift`, and its gift as a set by value.
pub fn next_set(
    commits: &[u8],
    path: Path,
    count: PageCount,
    from: usize,
    notes: &mut Notes,
) -> Found
    requires commits_value { (commits_ok commits.now ≡ true) × Inside commits.now (places_in path.runs) }
    requires known { Known (held_by (before from (commits_at commits.now (places_in path.runs)))) notes.old }
    ensures value { result ≡ found_from commits.now count.0 (places_in path.runs) from }
    ensures known_2 { Known (held_by (before result.next (commits_at commits.now (places_in path.runs)))) notes.new }
{
    let mut left = [0u64; 32];
    let step = next_gift(commits, path, count, from, notes, &mut left);
    let at = step.at;
    let next = step.next;
    let Some(i) = at else {
        let gift = sets::empty();
        return Found {
            at: None,
            next,
            gift,
        };
    };
    let gift = gift_set(commits, i, &left);
    Found {
        at: Some(i),
        next,
        gift,
    }
}
