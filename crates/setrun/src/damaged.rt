// Sets that are not in normal form: every call that takes a set refuses each, in the order of the numbers.
use basics::page_count::PageCount;
use basics::pageidx::PageIdx;
use pageset::{CutAnswer, PageSet, SetAnswer, Window, sets};
use plainset::tally::Tally;
use plainset::{held, said};
use std::array;

// A count and two windows, each an index and a mask: a set in normal form or not.
fn made(len: usize, index: u32, mask: u64, next: u32, next_mask: u64) -> PageSet {
    let mut windows = [Window { index: 0, mask: 0 }; 32];
    windows[0] = Window { index, mask };
    windows[1] = Window {
        index: next,
        mask: next_mask,
    };
    PageSet { len, windows }
}

// A set in normal form.
fn sound() -> PageSet {
    made(2, 0, 2, 5, 9)
}

// A set with something in the last window.
fn tailed(len: usize, mask: u64) -> PageSet {
    let mut windows = [Window { index: 0, mask: 0 }; 32];
    windows[31] = Window { index: 0, mask };
    PageSet { len, windows }
}

// 32 windows and their pages, and a count of them.
fn filled(len: usize) -> PageSet {
    let windows = array::from_fn(|i| Window {
        index: i as u32,
        mask: 4,
    });
    PageSet { len, windows }
}

// An answer's number, and the empty set.
fn set(tally: &mut Tally, a: SetAnswer, code: u32) {
    let s = a.set;
    tally.same(a.code, code);
    held::blank(tally, s);
}

// A cut's number, and empty sets.
fn parts(tally: &mut Tally, a: CutAnswer, code: u32) {
    let c = a.common;
    let l = a.left;
    tally.same(a.code, code);
    held::blank(tally, c);
    held::blank(tally, l);
}

// An insertion's number, no, and the empty set.
fn insertion(tally: &mut Tally, s: PageSet, p: u32, code: u32) {
    let got = pagecalls::insert(s, PageIdx(p));
    let left = got.set;
    tally.same(got.code, code);
    tally.same(got.new, false);
    held::blank(tally, left);
}

// The calls that ask a set for a number or a page.
fn questions(tally: &mut Tally, s: PageSet) {
    tally.same(said::count(pagecalls::cardinality(s)), Err(3));
    tally.same(said::page(pagecalls::first(s)), Err(3));
    tally.same(said::page(pagecalls::last(s)), Err(3));
    tally.same(said::yes(pagecalls::contains(s, PageIdx(65))), Err(3));
}

// The calls that take a set and a range, where the range earns a number or none.
fn ranges(tally: &mut Tally, s: PageSet, a: u32, b: u32, code: u32) {
    let any = said::yes(pagecalls::contains_any(s, PageIdx(a), PageIdx(b)));
    let all = said::yes(pagecalls::contains_all(s, PageIdx(a), PageIdx(b)));
    tally.same(any, Err(code));
    tally.same(all, Err(code));
    set(
        tally,
        pagecalls::remove_page_range(s, PageIdx(a), PageIdx(b)),
        code,
    );
}

// The calls that take two sets, with the damaged one first, second and both.
fn pairs(tally: &mut Tally, s: PageSet, good: PageSet) {
    for (a, b) in [(s, good), (good, s), (s, s)] {
        set(tally, pagecalls::union(a, b), 3);
        parts(tally, pagecalls::cut(a, b), 3);
    }
}

// The calls that take a set and a page or a count.
fn pages(tally: &mut Tally, s: PageSet) {
    insertion(tally, s, 65, 3);
    insertion(tally, s, 0, 1);
    tally.same(said::yes(pagecalls::contains(s, PageIdx(0))), Err(1));
    set(tally, pagecalls::truncate(s, PageCount(0)), 3);
    set(tally, pagecalls::truncate(s, PageCount(u32::MAX)), 3);
}

// Every call on one damaged set.
fn refused(tally: &mut Tally, s: PageSet) {
    questions(tally, s);
    pages(tally, s);
    ranges(tally, s, 1, 4294967295, 3);
    ranges(tally, s, 0, 5, 1);
    ranges(tally, s, 5, 0, 1);
    ranges(tally, s, 6, 5, 2);
    pairs(tally, s, sound());
    pairs(tally, s, sets::empty());
}

// Windows that do not rise, one index twice, an empty mask, page 0.
fn in_windows() -> [PageSet; 6] {
    [
        made(2, 5, 9, 4, 9),
        made(2, 5, 9, 5, 6),
        made(2, 4, 9, 5, 0),
        made(2, 4, 0, 5, 9),
        made(1, 0, 1, 0, 0),
        made(2, 0, 3, 5, 9),
    ]
}

// Windows past the last page.
fn past_pages() -> [PageSet; 3] {
    [
        made(1, 67108864, 1, 0, 0),
        made(2, 67108863, 1, 67108864, 1),
        made(2, 5, 1, 4294967295, 1),
    ]
}

// Something past the count, and a count past what is filled.
fn past_count() -> [PageSet; 6] {
    [
        made(1, 4, 9, 5, 9),
        made(1, 4, 9, 5, 0),
        made(0, 0, 2, 0, 0),
        made(3, 4, 9, 5, 9),
        tailed(0, 2),
        tailed(1, 0),
    ]
}

// Counts about 32, and past it.
fn counts() -> [PageSet; 4] {
    [
        filled(31),
        filled(33),
        filled(usize::MAX),
        made(33, 0, 0, 0, 0),
    ]
}

// Each of some damaged sets.
fn each(tally: &mut Tally, sets: &[PageSet]) {
    for s in sets {
        refused(tally, *s);
    }
}

// The sets that these were made from are in normal form.
fn controls(tally: &mut Tally) {
    held::ends(tally, sound(), &[1u32, 320, 323]);
    tally.same(said::count(pagecalls::cardinality(filled(32))), Ok(32));
    let top = made(1, 67108863, 9223372036854775808, 0, 0);
    tally.same(said::page(pagecalls::last(top)), Ok(Some(u32::MAX)));
}

// All damaged sets.
pub fn all() -> Tally {
    let mut tally = Tally::default();
    each(&mut tally, &in_windows());
    each(&mut tally, &past_pages());
    each(&mut tally, &past_count());
    each(&mut tally, &counts());
    controls(&mut tally);
    tally
}
