// The frames of a segment in bytes, each read where it stands: one of them, or all into a lent list. No list of frames is a value, so that the calls need little stack.
ghost use Rattle.std.specs.Prelude.{◌≡◌, ◌+◌, ◌*◌, ◌<◌, ◌≤◌, true, length};
ghost use Rattle.octets.specs.Bytes.{put};
ghost use Rattle.octets.specs.Flat.{flat};
ghost use Rattle.rules.specs.Forms.{segment_form};
ghost use Rattle.rules.specs.Frames.{parts_of};
ghost use Rattle.commit.specs.Says.{frame_says};
ghost use Rattle.frames.specs.Rules.{list_rule};
ghost use Rattle.layout.specs.Values.{part_bytes};
ghost use Rattle.resultlists.specs.Lists.{roomed, list_left};
ghost use Rattle.segmentargs.specs.Segments.{segment_arg};
ghost use Rattle.segmentargs.specs.Lists.{segment_in, Nth, run_in, IsFrame};

use arguments::Reply;
use basics::pageidx::PageIdx;
use commit::{Frame, SegmentRange};
use frames::Run;
use layout::{RANGE, SEGMENT};
use octets::{load_id, load32, load64};
use pageset::sets;
use segmentbytes::frames::frames_count;
use segmentbytes::{range_write, segment_form};
use setbytes::set_read;

// Entry k, counted from 0, of the frames of the segment at a place: a size and a last page.
fn entry_in(b: &[u8], at: usize, k: usize) -> Frame
    requires { (at + 594 ≤ length b.now) × (k < length (segment_in at b.now).frames) }
    ensures { Nth (segment_in at b.now).frames k (frame_says result) }
{
    let from = at + 402 + k * 12;
    let size = load64(b, from);
    let last = PageIdx(load32(b, from + 8));
    Frame { size, last }
}

// Where frame k of the segment in form at a place lies: one walk that adds the sizes and carries the page before the next frame. The first frame may start at page 1:
// it holds the same pages as from the set's first page on.
fn run_in(b: &[u8], at: usize, k: usize) -> Run
    requires { (at + 594 ≤ length b.now) × (segment_form (segment_in at b.now) ≡ true) × (k < length (segment_in at b.now).frames) }
    ensures { Nth (parts_of (segment_in at b.now)) k (run_in (segment_in at b.now) result) × (0 < result.first.0) }
{
    let mut below: u32 = 0;
    let mut start: u64 = 0;
    for i in 0..k {
        let f = entry_in(b, at, i);
        start += f.size;
        below = f.last.0;
    }
    let f = entry_in(b, at, k);
    let end = start + f.size;
    let first = PageIdx(below + 1);
    let last = f.last;
    Run {
        start,
        end,
        first,
        last,
    }
}

// Frame k, counted from 0, of the segment in form at a place: its bytes, and the pages of the segment's set from its first page to its last.
pub fn frame_in(b: &[u8], at: usize, k: usize) -> SegmentRange
    requires { (at + 594 ≤ length b.now) × (segment_form (segment_in at b.now) ≡ true) × (k < length (segment_in at b.now).frames) }
    ensures { IsFrame (parts_of (segment_in at b.now)) k result }
{
    let run = run_in(b, at, k);
    let first = run.first;
    let last = run.last;
    let sid = load_id(b, at);
    let pages = sets::span(set_read(b, at + 16), first, last);
    SegmentRange {
        sid,
        start: run.start,
        end: run.end,
        pages,
    }
}

// The n frames of a segment in form, one after another from the start of the list on.
fn write_frames(list: &mut [u8], b: &[u8], n: usize)
    requires in_bounds { (594 ≤ length b.now) × (segment_form (segment_in 0 b.now) ≡ true) × (n ≡ length (segment_in 0 b.now).frames) }
    requires n_in_bounds { n * 417 ≤ length list.old }
    ensures { list.new ≡ put 0 (flat part_bytes.spell (parts_of (segment_in 0 b.now))) list.old }
{
    for i in 0..n {
        let range = frame_in(b, 0, i);
        range_write(list, i * RANGE, range);
    }
}

// The frames of a segment in bytes into a lent list of ranges, and their number: 3, 19.
pub fn frame_list(b: &[u8], list: &mut [u8], items: &mut u32) -> Reply
    ensures { (result, (list.new, items.new)) ≡ list_left part_bytes list.old items.old (roomed part_bytes list.old (list_rule (segment_arg b.now))) }
{
    if b.len() != SEGMENT {
        return Reply { code: 3, found: 0 };
    }
    if !segment_form(b, 0) {
        return Reply { code: 3, found: 0 };
    }
    let n = frames_count(b, 401);
    if list.len() / RANGE < n {
        return Reply { code: 19, found: 0 };
    }
    write_frames(list, b, n);
    *items = n as u32;
    Reply { code: 0, found: 1 }
}
