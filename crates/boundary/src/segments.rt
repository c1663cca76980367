// Segments and their frames, in bytes.
ghost use Rattle.std.specs.Prelude.{◌≡◌, length};
ghost use Rattle.frames.specs.Rules.{list_rule, frame_rule, bytes_rule, part_bytes};
ghost use Rattle.boundary.specs.Parts.{part_left};
ghost use Rattle.layout.specs.Values.{part_bytes as entry_form};
ghost use Rattle.resultlists.specs.Lists.{roomed, list_left};
ghost use Rattle.segmentargs.specs.Segments.{segment_arg, range_arg, range_left, join_left};

use arguments::Reply;
use arguments::replies::refused;
use basics::pageidx::PageIdx;
use frames::{frame_for, frame_place};
use ranges::join;
use segmentargs::lists::frame_list;
use segmentargs::{put_range, range_arg, segment_arg};

// The frames of a segment as a list of ranges, and their number: 3, 19.
pub fn sigatuda_frame_list(segment: &[u8], list: &mut [u8], items: &mut u32) -> Reply
    ensures { (result, (list.new, items.new)) ≡ list_left entry_form list.old items.old (roomed entry_form list.old (list_rule (segment_arg segment.now))) }
{
    frame_list(segment, list, items)
}

// The frame of a page, or nothing: 1, 3.
pub fn sigatuda_frame_of_page(segment: &[u8], page: u32, out: &mut [u8]) -> Reply
    ensures { (result, out.new) ≡ range_left out.old (frame_rule (segment_arg segment.now) page) }
{
    put_range(frame_for(segment_arg(segment), PageIdx(page)), out)
}

// The bytes of a page's frame as a part of the lent segment, or nothing: 1, 3, 23.
pub fn sigatuda_frame_bytes<'a>(
    segment: &[u8],
    page: u32,
    lent: &'a [u8],
    part: &mut &'a [u8],
) -> Reply
    ensures { (result, part.new.now) ≡ part_left lent.now part.old.now (part_bytes (bytes_rule (segment_arg segment.now) page (length lent.now))) }
{
    match frame_place(segment_arg(segment), PageIdx(page), lent.len()) {
        Err(refusal) => refused(refusal),
        Ok(Some((start, end))) => {
            let bytes = &lent[start..end];
            *part = bytes;
            Reply { code: 0, found: 1 }
        }
        Ok(None) => Reply { code: 0, found: 0 },
    }
}

// Two ranges joined, or nothing where they do not touch: 2, 3, 22.
pub fn sigatuda_join(a: &[u8], b: &[u8], out: &mut [u8]) -> Reply
    ensures { (result, out.new) ≡ join_left out.old (range_arg a.now) (range_arg b.now) }
{
    put_range(join(range_arg(a), range_arg(b)), out)
}
