// Segments and ranges of a segment in bytes as arguments, and ranges as answers.
#![tactic(auto)]

pub mod lists;

ghost use Rattle.std.specs.Prelude.{◌≡◌, true};
ghost use Rattle.basics.specs.Answers.{code};
ghost use Rattle.commit.specs.Says.{answer_says, answer_form};
ghost use Rattle.segmentargs.specs.Segments.{not_asegment, segment_arg, not_arange, range_arg, range_put};

use arguments::Reply;
use arguments::replies::refused;
use arguments::sets::{is_early, not_a_set};
use basics::refusal::Refusal;
use commit::{SegmentIdx, SegmentRange};
use layout::{RANGE, SEGMENT};
use segmentbytes::{range_form, range_read, range_write, segment_form, segment_read};

// A segment that is not in form.
fn not_a_segment() -> SegmentIdx
    ensures { result ≡ not_asegment }
{
    let sid = [0u8; 16];
    let pages = not_a_set();
    let frames = commit::no_frames();
    SegmentIdx {
        sid,
        pages,
        len: 0,
        frames,
    }
}

// The segment that an argument spells; one that is not in form where its length or its form is wrong.
pub fn segment_arg(b: &[u8]) -> SegmentIdx
    ensures { result ≡ segment_arg b.now }
{
    if b.len() != SEGMENT {
        return not_a_segment();
    }
    if !segment_form(b, 0) {
        return not_a_segment();
    }
    segment_read(b, 0)
}

// A range of no bytes whose set is not in form.
fn not_a_range() -> SegmentRange
    ensures { result ≡ not_arange }
{
    let sid = [0u8; 16];
    let pages = not_a_set();
    SegmentRange {
        sid,
        start: 0,
        end: 0,
        pages,
    }
}

// The range that an argument spells, with a set that is not in form where its own is not; one of no bytes where its length is wrong.
pub fn range_arg(b: &[u8]) -> SegmentRange
    ensures { result ≡ range_arg b.now }
{
    if b.len() != RANGE {
        return not_a_range();
    }
    let range = range_read(b, 0);
    if range_form(b, 0) {
        return range;
    }
    let sid = range.sid;
    let pages = not_a_set();
    SegmentRange {
        sid,
        start: range.start,
        end: range.end,
        pages,
    }
}

// The number of a range's answer; 0 where it is not refused.
fn number(a: Result<Option<SegmentRange>, Refusal>) -> u32
    ensures { result ≡ code (answer_says a) }
{
    match a {
        Err(refusal) => refusal.number(),
        Ok(_) => 0,
    }
}

// A range's answer in bytes: 1, 2 or 3 of the call; 3 for a lent slice of another length; 22; nothing; or the range.
pub fn put_range(a: Result<Option<SegmentRange>, Refusal>, out: &mut [u8]) -> Reply
    requires { answer_form a ≡ true }
    ensures { (result, out.new) ≡ range_put out.old (answer_says a) }
{
    let code = number(a);
    if is_early(code) {
        return Reply { code, found: 0 };
    }
    if out.len() != RANGE {
        return Reply { code: 3, found: 0 };
    }
    match a {
        Err(refusal) => refused(refusal),
        Ok(None) => Reply { code: 0, found: 0 },
        Ok(Some(range)) => {
            range_write(out, 0, range);
            Reply { code: 0, found: 1 }
        }
    }
}
