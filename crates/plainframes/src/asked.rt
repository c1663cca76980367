// The calls on frames, each answer against the lists.
ghost use Rattle.std.specs.Prelude.{◌≡◌};
ghost use Rattle.plainframes.specs.Zeros.{range_or_zero, list_or_none};

use crate::plain;
use crate::plain::Plain;
use basics::id::SegmentId;
use basics::pageidx::PageIdx;
use basics::refusal::Refusal;
use commit::SegmentRange;
use frames::FrameList;
use plainset::tally::Tally;
use plainset::{held, said};

// The number of an answer; 0 where it is not refused.
pub fn number<A>(a: &Result<A, Refusal>) -> u32 {
    match a {
        Ok(_) => 0,
        Err(refusal) => refusal.number(),
    }
}

// Whether an answer holds a range.
pub fn is_found(a: Result<Option<SegmentRange>, Refusal>) -> bool {
    match a {
        Ok(Some(_)) => true,
        _ => false,
    }
}

// The range of an answer; one of zeros where it holds none. A refusal and an answer without a range look alike then, so the comparisons here take the answer itself.
pub fn range_or_zero(a: Result<Option<SegmentRange>, Refusal>) -> SegmentRange
    ensures { result ≡ range_or_zero a }
{
    match a {
        Ok(Some(r)) => r,
        _ => SegmentRange::zero(),
    }
}

// The frame list of an answer; no frame where it is refused. The comparisons here take `count` and `place`, which keep the number of a refusal.
pub fn list_or_none(a: Result<FrameList, Refusal>) -> FrameList
    ensures { result ≡ list_or_none a }
{
    match a {
        Ok(list) => list,
        Err(_) => FrameList {
            len: 0,
            frames: [SegmentRange::zero(); 16],
        },
    }
}

// An answer that may hold a range. A refusal is an error that holds its number.
pub type Found = Result<Option<SegmentRange>, u32>;

// How many frames a frame list has.
pub fn count(a: Result<FrameList, Refusal>) -> Result<usize, u32> {
    said::told(a).map(|list| list.len)
}

// What stands at place i of a frame list.
pub fn place(a: Result<FrameList, Refusal>, i: usize) -> Found {
    said::told(a).map(|list| list.frames.get(i).copied())
}

// What an answer says of a part of its range: that part, none where it holds no range, or the number of its refusal.
fn field<T, Reads: Fn(SegmentRange) -> T>(a: &Found, reads: Reads) -> Result<Option<T>, u32>
    requires { Reads.IsAlwaysCallable reads }
{
    match a {
        Ok(Some(r)) => Ok(Some(reads(*r))),
        Ok(None) => Ok(None),
        Err(code) => Err(*code),
    }
}

// An answer that holds a range: its segment, its bytes and its pages.
pub fn range(tally: &mut Tally, a: Found, sid: SegmentId, start: u64, end: u64, list: &[u32]) {
    tally.same(field(&a, |r| r.sid), Ok(Some(sid)));
    tally.same(field(&a, |r| r.start), Ok(Some(start)));
    tally.same(field(&a, |r| r.end), Ok(Some(end)));
    if let Ok(Some(r)) = a {
        held::whole(tally, r.pages, list);
    }
}

// An answer without a range, or with one of zeros: what it says of each part is what is wanted.
pub fn no_range(tally: &mut Tally, a: Found, want: Found) {
    tally.same(field(&a, |r| r.sid), field(&want, |r| r.sid));
    tally.same(field(&a, |r| r.start), field(&want, |r| r.start));
    tally.same(field(&a, |r| r.end), field(&want, |r| r.end));
    tally.same(
        field(&a, |r| held::is_blank(r.pages)),
        field(&want, |r| held::is_blank(r.pages)),
    );
}

// An answer that holds no range, under a number.
pub fn none(tally: &mut Tally, a: Result<Option<SegmentRange>, Refusal>, code: u32) {
    tally.same(number(&a), code);
    tally.same(is_found(a), false);
    let want = if code != 0 { Err(code) } else { Ok(None) };
    no_range(tally, said::told(a), want);
}

// The number of bytes of a range that does not end before it starts.
fn size(tally: &mut Tally, r: SegmentRange, want: u64) {
    if r.end < r.start {
        return tally.same(r.end, r.start);
    }
    tally.same(ranges::size(r), want);
}

// An answer that holds frame i of the lists.
fn frame(tally: &mut Tally, p: &Plain, a: Found, i: usize) {
    let list = p.pages_of(i);
    if let Ok(Some(r)) = a {
        size(tally, r, p.size(i));
    }
    range(tally, a, plain::sid(), p.start(i), p.end(i), &list);
}

// How many frames the lists have, or the number of the segment.
fn count_of(p: &Plain) -> Result<usize, u32> {
    match p.fault() {
        0 => Ok(p.len),
        code => Err(code),
    }
}

// The sixteen places of a frame list: the frames, and zeros past the last; each is refused where the segment is.
fn places(tally: &mut Tally, p: &Plain, a: Result<FrameList, Refusal>) {
    let count = count_of(p);
    for i in 0..16 {
        match count {
            Ok(len) if i < len => frame(tally, p, place(a, i), i),
            Ok(_) => no_range(tally, place(a, i), Ok(Some(SegmentRange::zero()))),
            Err(code) => no_range(tally, place(a, i), Err(code)),
        }
    }
}

// The frame list of a segment, under its number.
pub fn list(tally: &mut Tally, p: &Plain) {
    let got = frames::frame_list(p.segment());
    tally.same(number(&got), p.fault());
    tally.same(count(got), count_of(p));
    places(tally, p, got);
}

// Whether a segment is in form.
pub fn form(tally: &mut Tally, p: &Plain) {
    tally.same(frames::frames_ok(p.segment()), p.fault() == 0);
}

// The number of a page and a segment.
fn page_fault(p: &Plain, page: u32) -> u32 {
    if page == 0 {
        return 1;
    }
    p.fault()
}

// The frame of a page.
pub fn page(tally: &mut Tally, p: &Plain, page: u32) {
    let got = frames::frame_for(p.segment(), PageIdx(page));
    let code = page_fault(p, page);
    if code != 0 {
        return none(tally, got, code);
    }
    let Some(i) = p.frame_of(page) else {
        return none(tally, got, 0);
    };
    tally.same(number(&got), 0);
    tally.same(is_found(got), true);
    frame(tally, p, said::told(got), i);
}

// Where a page's frame lies in a lent segment: from start up to but not at end, or nowhere. A refusal is an error that holds its number.
type Place = Result<Option<(u64, u64)>, u32>;

// The place that the lists say.
fn place_of(p: &Plain, page: u32, lent: usize) -> Place {
    let code = page_fault(p, page);
    if code != 0 {
        return Err(code);
    }
    let Some(i) = p.frame_of(page) else {
        return Ok(None);
    };
    if (lent as u64) < p.end(i) {
        return Err(23);
    }
    Ok(Some((p.start(i), p.end(i))))
}

// Where the bytes of a page's frame lie, in a lent segment of so many bytes: whether there is a place, and of a place its start and its end.
pub fn bytes(tally: &mut Tally, p: &Plain, page: u32, lent: usize) {
    let got = said::told(frames::frame_place(p.segment(), PageIdx(page), lent));
    let want = place_of(p, page, lent);
    tally.same(
        got.map(|place| place.is_some()),
        want.map(|place| place.is_some()),
    );
    if let (Ok(Some((from, to))), Ok(Some((start, end)))) = (got, want) {
        tally.same(from as u64, start);
        tally.same(to as u64, end);
    }
}

// The bytes that the lists say of a page's frame in a lent segment; none where it has no place there.
fn part_of<'a>(p: &Plain, page: u32, lent: &'a [u8]) -> &'a [u8] {
    match place_of(p, page, lent.len()) {
        Ok(Some((start, end))) => lent.get(start as usize..end as usize).unwrap_or(&[]),
        _ => &[],
    }
}

// The bytes that a page's frame has in a lent segment, and where they lie.
pub fn part(tally: &mut Tally, p: &Plain, page: u32, lent: &[u8]) {
    let got = frames::frame_bytes(p.segment(), PageIdx(page), lent);
    bytes(tally, p, page, lent.len());
    tally.same(got, part_of(p, page, lent));
}

#[cfg(test)]
mod tests {
    use super::*;
    use pageset::{Window, sets};

    // Range n of a segment: from byte n to byte 10, with the pages that are the bits of n in window 3.
    fn piece(n: u64) -> SegmentRange {
        let mut pages = sets::empty();
        pages.len = 1;
        pages.windows[0] = Window { index: 3, mask: n };
        SegmentRange {
            sid: [7; 16],
            start: n,
            end: 10,
            pages,
        }
    }

    // Whether a range is range n, in its segment, its bytes and its pages.
    fn is_piece(r: SegmentRange, n: u64) -> bool {
        let w = r.pages.windows[0];
        let paged = r.pages.len == 1 && w.index == 3 && w.mask == n;
        r.sid == [7; 16] && r.start == n && r.end == 10 && paged
    }

    // Whether all of a range is zero.
    fn is_zero(r: SegmentRange) -> bool {
        r.sid == [0; 16] && r.start == 0 && r.end == 0 && held::is_blank(r.pages)
    }

    // A range that is held is answered; where none is, and where the call is refused, zeros.
    #[test]
    fn range_held_or_zeros(rt: HostRuntime) {
        assert!(rt; is_piece(range_or_zero(Ok(Some(piece(5)))), 5));
        assert!(rt; is_zero(range_or_zero(Ok(None))));
        assert!(rt; is_zero(range_or_zero(Err(Refusal::Form))));
    }

    // A frame list that is held is answered, each frame in its place; where the call is refused, none of its sixteen frames.
    #[test]
    fn list_held_or_none(rt: HostRuntime) {
        let mut frames = [piece(1); 16];
        frames[1] = piece(2);
        frames[15] = piece(9);
        let whole = list_or_none(Ok(FrameList { len: 16, frames }));
        assert_eq!(rt; whole.len, 16);
        assert!(rt; is_piece(whole.frames[0], 1));
        assert!(rt; is_piece(whole.frames[1], 2));
        assert!(rt; is_piece(whole.frames[15], 9));
        let none = list_or_none(Err(Refusal::Form));
        assert_eq!(rt; none.len, 0);
        assert!(rt; none.frames.iter().all(|r| is_zero(*r)));
    }
}
