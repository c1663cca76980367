// Ranges of up to 32 windows, each compared page by page, and ranges that are refused.
use basics::pageidx::PageIdx;
use plainset::held;
use plainset::tally::Tally;

// The pages from a to b as a list, as far as there is room; none where a is no page.
fn listed(a: u32, b: u32) -> [u32; 2048] {
    let mut list = [0u32; 2048];
    if a != 0 {
        for (place, p) in list.iter_mut().zip(a..=b) {
            *place = p;
        }
    }
    list
}

// Ranges: the first and the last page of each, its number, and its pages where it is built.
fn ranges(tally: &mut Tally, cases: &[(u32, u32)], code: u32) {
    for (a, b) in cases {
        let list = listed(*a, *b);
        let got = pagecalls::from_range(PageIdx(*a), PageIdx(*b));
        held::answer(tally, got, code, &list);
    }
}

// Ranges that are built, and what each has: one page, a window, parts of two, 32 windows.
const GOOD: [(u32, u32); 7] = [
    (1, 1),
    (1, 63),
    (64, 127),
    (63, 64),
    (1, 2047),
    (64, 2111),
    (127, 2111),
];

// The same at the last page.
const HIGH: [(u32, u32); 5] = [
    (4294967295, 4294967295),
    (4294967232, 4294967295),
    (4294967231, 4294967295),
    (4294967231, 4294967232),
    (4294965248, 4294967295),
];

// Ranges of 33 windows and more.
const WIDE: [(u32, u32); 5] = [
    (1, 2048),
    (63, 2048),
    (64, 2112),
    (4294965247, 4294967295),
    (1, 4294967295),
];

// Ranges that start or end at page 0.
const NO_PAGE: [(u32, u32); 4] = [(0, 5), (0, 0), (5, 0), (0, 4294967295)];

// Ranges that start above their end.
const REVERSED: [(u32, u32); 3] = [(2, 1), (4294967295, 1), (64, 63)];

// All ranges.
pub fn all() -> Tally {
    let mut tally = Tally::default();
    ranges(&mut tally, &GOOD, 0);
    ranges(&mut tally, &HIGH, 0);
    ranges(&mut tally, &WIDE, 22);
    ranges(&mut tally, &NO_PAGE, 1);
    ranges(&mut tally, &REVERSED, 2);
    tally
}
