// Pages and counts at the edges: of the numbers, of a window, and of a set.
use basics::pageidx::PageIdx;
use pageset::PageSet;
use plainset::held::Held;
use plainset::tally::Tally;
use plainset::{held, naive, said};

// Pages at the edges of windows, of 32 windows and of the numbers; 0 is none.
const EDGES: [u32; 20] = [
    0, 1, 2, 62, 63, 64, 65, 127, 128, 2047, 2048, 2049, 2111, 2112, 2147483647, 2147483648,
    4294965248, 4294967231, 4294967232, 4294967295,
];

// The number that building a range earns.
fn build_code(a: u32, b: u32) -> u32 {
    let fault = said::range_fault(a, b);
    if fault != 0 {
        return fault;
    }
    if b / 64 < a / 64 {
        return 0;
    }
    if 31 < b / 64 - a / 64 { 22 } else { 0 }
}

// The size and the ends of a range that was built.
fn range_ends(tally: &mut Tally, s: PageSet, a: u32, b: u32) {
    tally.same(
        said::count(pagecalls::cardinality(s)),
        Ok(naive::span(a, b)),
    );
    tally.same(said::page(pagecalls::first(s)), Ok(Some(a)));
    tally.same(said::page(pagecalls::last(s)), Ok(Some(b)));
    let all = said::yes(pagecalls::contains_all(s, PageIdx(a), PageIdx(b)));
    tally.same(all, Ok(true));
}

// A range from edge to edge.
fn edge_range(tally: &mut Tally, a: u32, b: u32) {
    let got = pagecalls::from_range(PageIdx(a), PageIdx(b));
    let code = build_code(a, b);
    tally.same(got.code, code);
    let s = got.set;
    if code != 0 {
        return held::blank(tally, s);
    }
    range_ends(tally, s, a, b);
}

// The ranges from one edge to each.
fn edge_row(tally: &mut Tally, a: u32) {
    for b in EDGES {
        edge_range(tally, a, b);
    }
}

// The ranges from each edge to each.
pub fn ranges() -> Tally {
    let mut tally = Tally::default();
    for a in EDGES {
        edge_row(&mut tally, a);
    }
    tally
}

// The set of every third edge, from the first, the second or the third on.
fn edge_set(from: usize) -> Held {
    EDGES
        .iter()
        .skip(from)
        .step_by(3)
        .fold(held::empty(), |h, p| held::grown(h, *p))
}

// One edge as a page, as a count, and as the start of the range to each other.
fn on_row(tally: &mut Tally, h: &Held, a: u32) {
    held::insert(tally, h, a);
    held::truncate(tally, h, a);
    for b in EDGES {
        held::range(tally, h, a, b);
        held::remove(tally, h, a, b);
    }
}

// One set at each edge.
fn on_set(tally: &mut Tally, h: &Held) {
    held::own(tally, h);
    for a in EDGES {
        on_row(tally, h, a);
    }
}

// Sets of edges, and the set of none, at each edge and together.
pub fn sets() -> Tally {
    let none = held::empty();
    let low = edge_set(0);
    let high = edge_set(1);
    let other = edge_set(2);
    let mut tally = Tally::default();
    for h in [&none, &low, &high, &other] {
        on_set(&mut tally, h);
    }
    for (a, b) in [(&low, &high), (&high, &other), (&none, &low)] {
        held::pair(&mut tally, a, b);
    }
    tally
}
