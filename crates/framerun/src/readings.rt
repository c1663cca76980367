// The bench readings P8 and P9, by their numbers: set {2,3,5,9}, frames (size 100, last 3), (50, 9).
use basics::pageidx::PageIdx;
use plainframes::plain::Plain;
use plainframes::{asked, plain};
use plainset::tally::Tally;
use plainset::{held, said};

// The segment of the readings.
pub fn reading() -> Plain {
    Plain::bare(held::built(&[2u32, 3, 5, 9]))
        .with(100, 3)
        .with(50, 9)
}

// The frame of a page: its bytes and its pages.
fn frame(tally: &mut Tally, page: u32, start: u64, end: u64, list: &[u32]) {
    let got = frames::frame_for(reading().segment(), PageIdx(page));
    tally.same(asked::number(&got), 0);
    asked::range(tally, said::told(got), plain::sid(), start, end, list);
}

// A page without a frame.
fn no_frame(tally: &mut Tally, page: u32) {
    let got = frames::frame_for(reading().segment(), PageIdx(page));
    asked::none(tally, got, 0);
}

// The two frames of the list.
fn listed(tally: &mut Tally) {
    let got = frames::frame_list(reading().segment());
    tally.same(asked::number(&got), 0);
    tally.same(asked::count(got), Ok(2));
    let first = asked::place(got, 0);
    let second = asked::place(got, 1);
    asked::range(tally, first, plain::sid(), 0, 100, &[2u32, 3]);
    asked::range(tally, second, plain::sid(), 100, 150, &[5u32, 9]);
}

// P8: bytes 0 to 100 exclusive with {2,3}, 100 to 150 with {5,9}. P9: page 4 has no frame; nor has any other page that is not in the set.
fn page(tally: &mut Tally, page: u32) {
    match page {
        2 | 3 => frame(tally, page, 0, 100, &[2u32, 3]),
        5 | 9 => frame(tally, page, 100, 150, &[5u32, 9]),
        _ => no_frame(tally, page),
    }
}

// Both readings, by the list and page by page.
pub fn all() -> Tally {
    let mut tally = Tally::default();
    listed(&mut tally);
    for p in 1..12 {
        page(&mut tally, p);
    }
    tally
}
