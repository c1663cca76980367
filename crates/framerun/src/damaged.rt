// Segments and ranges that are not in form: every call refuses each, in the order of the numbers.
use basics::pageidx::PageIdx;
use commit::{Frame, SegmentIdx, SegmentRange};
use pageset::{PageSet, Window, sets};
use plainframes::asked;
use plainset::tally::Tally;

// A set of one window with a count of windows.
fn window(len: usize, index: u32, mask: u64) -> PageSet {
    let mut windows = [Window { index: 0, mask: 0 }; 32];
    windows[0] = Window { index, mask };
    PageSet { len, windows }
}

// Page 2 in a segment with a frame up to page 9, and maybe another frame at a place; the first `len` frames count.
fn made(pages: PageSet, len: usize, other: Option<(usize, Frame)>) -> SegmentIdx {
    let mut frames = commit::no_frames();
    frames[0] = Frame {
        size: 1,
        last: PageIdx(9),
    };
    if let Some((k, frame)) = other {
        if let Some(place) = frames.get_mut(k) {
            *place = frame;
        }
    }
    SegmentIdx::new([1u8; 16], pages).with_frames(len, frames)
}

// The frame of a page and its bytes: a number.
fn page(tally: &mut Tally, s: SegmentIdx, page: u32, code: u32) {
    let got = frames::frame_for(s, PageIdx(page));
    let place = frames::frame_place(s, PageIdx(page), 100);
    let part = frames::frame_bytes(s, PageIdx(page), b"lent bytes");
    asked::none(tally, got, code);
    tally.same(asked::number(&place), code);
    tally.same(part.len(), 0);
}

// The frame list: a number, and the same for how many frames it has and for the places at both ends.
fn list(tally: &mut Tally, s: SegmentIdx) {
    let got = frames::frame_list(s);
    tally.same(asked::number(&got), 3);
    tally.same(asked::count(got), Err(3));
    asked::no_range(tally, asked::place(got, 0), Err(3));
    asked::no_range(tally, asked::place(got, 15), Err(3));
}

// Every call on a segment that is not in form: 3, and 1 for page 0 before that.
fn refused(tally: &mut Tally, s: SegmentIdx) {
    tally.same(frames::frames_ok(s), false);
    list(tally, s);
    page(tally, s, 2, 3);
    page(tally, s, 1, 3);
    page(tally, s, 0, 1);
}

// The set of page 2, in normal form.
fn sound() -> PageSet {
    window(1, 0, 4)
}

// Segments: a frame past the count, of a size or a last page alone; a count of none beside a frame; page 0; a count of windows that is too large.
fn broken() -> [SegmentIdx; 6] {
    let sized = Frame {
        size: 1,
        last: PageIdx(0),
    };
    let ended = Frame {
        size: 0,
        last: PageIdx(1),
    };
    [
        made(sound(), 1, Some((1, sized))),
        made(sound(), 1, Some((15, ended))),
        made(sound(), 0, None),
        made(window(1, 0, 5), 1, None),
        made(window(2, 0, 4), 1, None),
        made(window(33, 0, 4), 17, None),
    ]
}

// All of these; and the segment that they were made from, which is in form.
fn segments(tally: &mut Tally) {
    tally.same(frames::frames_ok(made(sound(), 1, None)), true);
    for s in broken() {
        refused(tally, s);
    }
}

// A range with a set.
fn range(start: u64, end: u64, pages: PageSet) -> SegmentRange {
    SegmentRange {
        sid: [1u8; 16],
        start,
        end,
        pages,
    }
}

// Two ranges, either way round: a number.
fn joined(tally: &mut Tally, a: SegmentRange, b: SegmentRange, code: u32) {
    asked::none(tally, ranges::join(a, b), code);
    asked::none(tally, ranges::join(b, a), code);
}

// Sets that are not in normal form: page 0, no page in a window, a window past the count.
fn bad() -> [PageSet; 3] {
    [window(1, 0, 5), window(1, 5, 0), window(0, 0, 4)]
}

// It is 3, also where the ranges do not touch; and a reversed range is 2 before that.
fn ranges_of(tally: &mut Tally, pages: PageSet) {
    let good = range(4, 8, sets::empty());
    joined(tally, range(8, 9, pages), good, 3);
    joined(tally, range(20, 21, pages), good, 3);
    joined(tally, range(9, 8, pages), good, 2);
}

// All of them.
pub fn all() -> Tally {
    let mut tally = Tally::default();
    segments(&mut tally);
    for pages in bad() {
        ranges_of(&mut tally, pages);
    }
    tally
}
