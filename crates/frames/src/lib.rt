// A segment's frames: whether they are in their domain, all of them, the frame of a page, and its bytes.
#![tactic(auto)]

ghost use Rattle.std.specs.Prelude.{◌≡◌, ◌+◌, ◌<◌, ◌≤◌, true, length, drop};
ghost use Rattle.std.proofs.Math.Option.{some};
ghost use Rattle.pageset.specs.Sets.{shown, normal};
ghost use Rattle.rules.specs.Frames.{part_of, parts_of, within_lent};
ghost use Rattle.rules.specs.Forms.{start_page, frames_form};
ghost use Rattle.commit.specs.Says.{listed, segment_says, IsRange, Tells};
ghost use Rattle.frames.specs.Places.{run_part, place_says, Placed, bytes_says, Within};
ghost use Rattle.frames.specs.Parts.{Filled, Lists};
ghost use Rattle.frames.specs.Rules.{no_frames, frames_ok, list_rule, frame_rule, bytes_rule, part_bytes, cut_bytes};

use basics::pageidx::PageIdx;
use basics::refusal::Refusal;
use commit::{SegmentIdx, SegmentRange};
use pageset::{PageSet, form, sets};

// Where a frame lies: from start up to but not at end, and from its first page to its last.
#[derive(Clone, Copy)]
pub struct Run {
    pub start: u64,
    pub end: u64,
    pub first: PageIdx,
    pub last: PageIdx,
}

// The frames of a segment: the first `len` count, and those past them are zero.
#[derive(Clone, Copy)]
pub struct FrameList {
    pub len: usize,
    pub frames: [SegmentRange; 16],
}

// The number before the page at which frame 1 starts: the set's first page, or page 1 where it has none.
fn before_first(pages: PageSet) -> u32
    requires { normal pages ≡ true }
    ensures { result + 1 ≡ start_page (shown pages) }
{
    let first = sets::first(pages);
    match first {
        Some(p) => p.0 - 1,
        None => 0,
    }
}

// Whether the frames that do not count are zero.
fn clear_past(s: SegmentIdx) -> bool
    requires { s.len ≤ 16 }
    ensures { result ≡ no_frames (drop s.len s.frames) }
{
    let fs = s.frames;
    for i in s.len..16 {
        let f = fs[i];
        if f.size != 0 {
            return false;
        }
        if f.last.0 != 0 {
            return false;
        }
    }
    true
}

// Whether the last pages strictly rise from the starting page on, and the sizes sum to at most 2^64-1.
fn in_domain(s: SegmentIdx) -> bool
    requires pages_value { normal s.pages ≡ true }
    requires len_bound { s.len ≤ 16 }
    ensures { result ≡ frames_form (shown s.pages) (listed s) }
{
    let pages = s.pages;
    let n = s.len;
    let fs = s.frames;
    let mut below = before_first(pages);
    let mut room = u64::MAX;
    for i in 0..n {
        let f = fs[i];
        if f.last.0 <= below {
            return false;
        }
        if room < f.size {
            return false;
        }
        below = f.last.0;
        room -= f.size;
    }
    true
}

// Whether a segment's set and its frames are in form; where they are not, the calls that take the segment answer 3.
pub fn frames_ok(s: SegmentIdx) -> bool
    ensures { result ≡ frames_ok s }
{
    let pages = s.pages;
    if !form::is_normal(pages) {
        return false;
    }
    if 16 < s.len {
        return false;
    }
    if !clear_past(s) {
        return false;
    }
    in_domain(s)
}

// Where the frame of a page lies: one walk that adds the sizes and carries the page before the next frame.
fn locate(s: SegmentIdx, page: PageIdx) -> Option<Run>
    requires { frames_ok s ≡ true }
    ensures says { place_says s result ≡ part_of (segment_says s) page.0 }
    ensures placed { Placed result }
{
    let pages = s.pages;
    if !sets::contains(pages, page) {
        return None;
    }
    let n = s.len;
    let fs = s.frames;
    let p = page.0;
    let mut below = before_first(pages);
    let mut start: u64 = 0;
    for i in 0..n {
        let f = fs[i];
        let end = start + f.size;
        if p <= f.last.0 {
            let first = PageIdx(below + 1);
            let last = f.last;
            return Some(Run {
                start,
                end,
                first,
                last,
            });
        }
        below = f.last.0;
        start = end;
    }
    None
}

// The frame that lies there: its bytes, and the pages of the segment's set from its first page to its last.
fn frame_at(s: SegmentIdx, run: Run) -> SegmentRange
    requires pages_value { normal s.pages ≡ true }
    requires first_nonzero { 0 < run.first.0 }
    ensures { IsRange (run_part s run) result }
{
    let sid = s.sid;
    let from = s.pages;
    let first = run.first;
    let last = run.last;
    let pages = sets::span(from, first, last);
    SegmentRange {
        sid,
        start: run.start,
        end: run.end,
        pages,
    }
}

// The frame of a page: 1 for page 0, 3 for a segment that is not in form, then the frame or none.
pub fn frame_for(s: SegmentIdx, page: PageIdx) -> Result<Option<SegmentRange>, Refusal>
    ensures { Tells result (frame_rule s page.0) }
{
    if page.0 == 0 {
        return Err(Refusal::Zero);
    }
    if !frames_ok(s) {
        return Err(Refusal::Form);
    }
    match locate(s, page) {
        Some(run) => Ok(Some(frame_at(s, run))),
        None => Ok(None),
    }
}

// Sixteen places for frames: those of a segment in form, and zeros past them. One walk that adds the sizes and carries the page before the next frame.
fn all_frames(s: SegmentIdx) -> [SegmentRange; 16]
    requires { frames_ok s ≡ true }
    ensures { Filled (parts_of (segment_says s)) result }
{
    let n = s.len;
    let fs = s.frames;
    let none = SegmentRange::zero();
    let mut frames = [none; 16];
    let mut below = before_first(s.pages);
    let mut start: u64 = 0;
    for i in 0..n {
        let f = fs[i];
        let end = start + f.size;
        let first = PageIdx(below + 1);
        let last = f.last;
        let run = Run {
            start,
            end,
            first,
            last,
        };
        frames[i] = frame_at(s, run);
        below = f.last.0;
        start = end;
    }
    frames
}

// The frames of a segment in their order, also those that hold no page or no byte: 3 for a segment that is not in form.
pub fn frame_list(s: SegmentIdx) -> Result<FrameList, Refusal>
    ensures { Lists result (list_rule s) }
{
    if !frames_ok(s) {
        return Err(Refusal::Form);
    }
    let frames = all_frames(s);
    Ok(FrameList { len: s.len, frames })
}

// Where the bytes of a frame lie: 23 where it reaches past the lent bytes.
fn in_lent(s: SegmentIdx, run: Run, lent: usize) -> Result<Option<(usize, usize)>, Refusal>
    requires { run.start ≤ run.end }
    ensures says { bytes_says result ≡ part_bytes (within_lent lent (some (run_part s run))) }
    ensures within { Within result lent }
{
    let start = run.start as usize;
    let end = run.end as usize;
    if lent < end {
        return Err(Refusal::PastSegment);
    }
    Ok(Some((start, end)))
}

// Where the bytes of a page's frame lie in a lent segment: 1 for page 0, 3 for a segment that is not in form, then none or 23 or the place.
pub fn frame_place(
    s: SegmentIdx,
    page: PageIdx,
    lent: usize,
) -> Result<Option<(usize, usize)>, Refusal>
    ensures says { bytes_says result ≡ part_bytes (bytes_rule s page.0 lent) }
    ensures within { Within result lent }
{
    if page.0 == 0 {
        return Err(Refusal::Zero);
    }
    if !frames_ok(s) {
        return Err(Refusal::Form);
    }
    match locate(s, page) {
        Some(run) => in_lent(s, run, lent),
        None => Ok(None),
    }
}

// The bytes of a page's frame, as a part of the lent segment. Where `frame_place` answers no frame or a refusal, the part is empty.
pub fn frame_bytes<'a>(s: SegmentIdx, page: PageIdx, bytes: &'a [u8]) -> &'a [u8]
    ensures { result.now ≡ cut_bytes (part_bytes (bytes_rule s page.0 (length bytes.now))) bytes.now }
{
    match frame_place(s, page, bytes.len()) {
        Ok(Some((start, end))) => &bytes[start..end],
        Ok(None) => &bytes[0..0],
        Err(_) => &bytes[0..0],
    }
}
