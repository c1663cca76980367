// Plain lists of pages, to hold the calls against: page numbers in any order, no page twice, and 0 where there is none, as page 0 is no page.

// A list with room for the pages of each set that is tried.
pub type Pages = [u32; 256];

// Whether a list has page p.
pub fn has(list: &[u32], p: u32) -> bool {
    p != 0 && list.contains(&p)
}

// Whether p is a page from a to b.
pub fn is_within(p: u32, a: u32, b: u32) -> bool {
    p != 0 && a <= p && p <= b
}

// How many pages of a list lie from a to b.
pub fn count_within(list: &[u32], a: u32, b: u32) -> u64 {
    list.iter().filter(|p| is_within(**p, a, b)).count() as u64
}

// The lowest page of a list.
pub fn lowest(list: &[u32]) -> Option<u32> {
    list.iter().copied().filter(|p| *p != 0).min()
}

// The highest page of a list.
pub fn highest(list: &[u32]) -> Option<u32> {
    list.iter().copied().filter(|p| *p != 0).max()
}

// The list with page p at the first free place.
pub fn with(list: Pages, p: u32) -> Pages {
    let mut pages = list;
    if let Some(place) = pages.iter_mut().find(|q| **q == 0) {
        *place = p;
    }
    pages
}

// The pages of a list that a test keeps.
pub fn kept<Keeps: Fn(u32) -> bool>(list: Pages, keeps: Keeps) -> Pages
    requires { Keeps.IsAlwaysCallable keeps }
{
    let mut pages = list;
    for p in &mut pages {
        if !keeps(*p) {
            *p = 0;
        }
    }
    pages
}

// The list with page p, where it is a page and the list has it not yet.
pub fn joined(list: Pages, p: u32) -> Pages {
    if p == 0 || has(&list, p) {
        return list;
    }
    with(list, p)
}

// The pages of either list.
pub fn both(list: Pages, other: &[u32]) -> Pages {
    other.iter().fold(list, |pages, p| joined(pages, *p))
}

// The index of the first page that shares 64 with p.
fn first_beside(list: &[u32], p: u32) -> Option<usize> {
    list.iter().position(|q| *q != 0 && *q / 64 == p / 64)
}

// Whether the page at i is the first of its 64.
fn starts_block(list: &[u32], p: u32, i: usize) -> bool {
    p != 0 && first_beside(list, p) == Some(i)
}

// How many blocks of 64 hold the pages of a list.
pub fn blocks(list: &[u32]) -> usize {
    list.iter()
        .enumerate()
        .filter(|(i, p)| starts_block(list, **p, *i))
        .count()
}

// How many pages there are from a to b.
pub fn span(a: u32, b: u32) -> u64 {
    if b < a { 0 } else { u64::from(b - a) + 1 }
}

// How many pages a list has.
pub fn size(list: &[u32]) -> u64 {
    count_within(list, 1, u32::MAX)
}

// A page and the pages beside it; the last page has none after it, and stands there itself.
pub fn around(p: u32) -> [u32; 3] {
    [p.saturating_sub(1), p, p.saturating_add(1)]
}
