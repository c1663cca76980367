// A set beside the list of its pages, and each call's answer against the list's.
use crate::naive::Pages;
use crate::tally::Tally;
use crate::{naive, said};
use basics::page_count::PageCount;
use basics::pageidx::PageIdx;
use pageset::{CutAnswer, PageSet, SetAnswer, sets};

// A set, and its pages as a list.
#[derive(Clone, Copy)]
pub struct Held {
    pub set: PageSet,
    pub pages: Pages,
}

// The set of no page.
pub fn empty() -> Held {
    let set = sets::empty();
    let pages = [0u32; 256];
    Held { set, pages }
}

// Whether page p is in a set.
fn at_page(tally: &mut Tally, s: PageSet, list: &[u32], p: u32) {
    tally.same(
        said::yes(pagecalls::contains(s, PageIdx(p))),
        said::contains(list, p),
    );
}

// The size, the first page and the last page of a set.
pub fn ends(tally: &mut Tally, s: PageSet, list: &[u32]) {
    tally.same(
        said::count(pagecalls::cardinality(s)),
        Ok(naive::size(list)),
    );
    tally.same(said::page(pagecalls::first(s)), Ok(naive::lowest(list)));
    tally.same(said::page(pagecalls::last(s)), Ok(naive::highest(list)));
}

// A set has the pages of a list and no other: its ends, and each page and the pages beside it.
pub fn whole(tally: &mut Tally, s: PageSet, list: &[u32]) {
    ends(tally, s, list);
    for p in list.iter().filter(|p| **p != 0) {
        for beside in naive::around(*p) {
            at_page(tally, s, list, beside);
        }
    }
}

// A set has the pages of the list beside it.
pub fn own(tally: &mut Tally, h: &Held) {
    whole(tally, h.set, &h.pages);
}

// Whether a set is the empty set: no windows, and nothing past them.
pub fn is_blank(s: PageSet) -> bool {
    s.len == 0 && s.windows.iter().all(|w| w.index == 0 && w.mask == 0)
}

// A refused set is the empty set.
pub fn blank(tally: &mut Tally, s: PageSet) {
    tally.same(is_blank(s), true);
}

// A set answer: a number, and the pages of a list or the empty set.
pub fn answer(tally: &mut Tally, a: SetAnswer, code: u32, list: &[u32]) {
    tally.same(a.code, code);
    let s = a.set;
    if code != 0 {
        return blank(tally, s);
    }
    whole(tally, s, list);
}

// The pages that a cut finds common, and those that it leaves.
fn cut_answer(tally: &mut Tally, a: CutAnswer, common: &[u32], left: &[u32]) {
    tally.same(a.code, 0);
    let c = a.common;
    let l = a.left;
    whole(tally, c, common);
    whole(tally, l, left);
}

// 22 where the pages of a list lie in more than 32 blocks of 64.
pub fn room_code(list: &[u32]) -> u32 {
    if 32 < naive::blocks(list) { 22 } else { 0 }
}

// The union of two sets.
pub fn union(tally: &mut Tally, a: &Held, b: &Held) {
    let list = naive::both(a.pages, &b.pages);
    let got = pagecalls::union(a.set, b.set);
    answer(tally, got, room_code(&list), &list);
}

// The cut of two sets.
pub fn cut(tally: &mut Tally, a: &Held, b: &Held) {
    let common = naive::kept(a.pages, |p| naive::has(&b.pages, p));
    let left = naive::kept(a.pages, |p| !naive::has(&b.pages, p));
    cut_answer(tally, pagecalls::cut(a.set, b.set), &common, &left);
}

// Two sets together, either way round, and one with itself.
pub fn pair(tally: &mut Tally, a: &Held, b: &Held) {
    union(tally, a, b);
    union(tally, b, a);
    cut(tally, a, b);
    cut(tally, b, a);
    union(tally, a, a);
    cut(tally, a, a);
}

// The number that an insertion earns.
fn insert_code(list: &[u32], p: u32) -> u32 {
    if p == 0 {
        return 1;
    }
    room_code(list)
}

// An insertion's number, and whether the page was new.
pub fn insert_number(tally: &mut Tally, h: &Held, p: u32) {
    let got = pagecalls::insert(h.set, PageIdx(p));
    let code = insert_code(&naive::joined(h.pages, p), p);
    tally.same(got.code, code);
    tally.same(got.new, code == 0 && !naive::has(&h.pages, p));
}

// An insertion, and the set that it gives.
pub fn insert(tally: &mut Tally, h: &Held, p: u32) {
    insert_number(tally, h, p);
    let got = pagecalls::insert(h.set, PageIdx(p));
    let after = naive::joined(h.pages, p);
    let set = got.set;
    let code = got.code;
    answer(
        tally,
        SetAnswer { code, set },
        insert_code(&after, p),
        &after,
    );
}

// The set with page p by the call, beside the list with page p; both as they were where the call refuses.
pub fn grown(h: Held, p: u32) -> Held {
    let got = pagecalls::insert(h.set, PageIdx(p));
    if got.code != 0 {
        return h;
    }
    let set = got.set;
    let pages = naive::joined(h.pages, p);
    Held { set, pages }
}

// The set of a draw, by insertions.
pub fn built(draws: &[u32]) -> Held {
    draws.iter().fold(empty(), |held, p| grown(held, *p))
}

// The pages up to n.
pub fn truncate(tally: &mut Tally, h: &Held, n: u32) {
    let list = naive::kept(h.pages, |p| p <= n);
    answer(tally, pagecalls::truncate(h.set, PageCount(n)), 0, &list);
}

// The pages not from a to b.
pub fn remove(tally: &mut Tally, h: &Held, a: u32, b: u32) {
    let list = naive::kept(h.pages, |p| !naive::is_within(p, a, b));
    let got = pagecalls::remove_page_range(h.set, PageIdx(a), PageIdx(b));
    answer(tally, got, said::range_fault(a, b), &list);
}

// Whether some page, and whether each page, from a to b is in the set.
pub fn range(tally: &mut Tally, h: &Held, a: u32, b: u32) {
    let any = said::yes(pagecalls::contains_any(h.set, PageIdx(a), PageIdx(b)));
    tally.same(any, said::contains_any(&h.pages, a, b));
    let all = said::yes(pagecalls::contains_all(h.set, PageIdx(a), PageIdx(b)));
    tally.same(all, said::contains_all(&h.pages, a, b));
}
