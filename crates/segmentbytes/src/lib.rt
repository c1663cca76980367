// Segments and ranges of a segment in bytes (docs/TABLES.md): a segment is 594 bytes, its identifier, its page set and its frames; a range 417, its identifier,
// its first byte, the byte after its last, and its pages. `frames` has the frames alone.
#![tactic(auto)]

pub mod frames;

ghost use Rattle.std.specs.Prelude.{◌≡◌, ◌+◌, ◌≤◌, true, length};
ghost use Rattle.octets.specs.Bytes.{part, put};
ghost use Rattle.pageset.specs.Sets.{normal_form};
ghost use Rattle.rules.specs.Forms.{start_page, segment_form};
ghost use Rattle.commit.specs.Says.{segment_says, range_says};
ghost use Rattle.layout.specs.Codecs.{Codec, in_form};
ghost use Rattle.layout.specs.Values.{set_bytes, segment_bytes, part_bytes};
ghost use Rattle.segmentbytes.specs.Laid.{segment_laid, range_laid, part_form};

use commit::{SegmentIdx, SegmentRange};
use octets::{load_id, load64, store_id, store64};
use setbytes::{set_first, set_form, set_read, set_write};

// The number before the page at which frame 1 starts: the first page of a set in form, or page 1 where it has none.
fn before_first(s: &[u8], at: usize) -> u32
    requires at_in_bounds { at + 385 ≤ length s.now }
    requires s_value { in_form set_bytes normal_form (part at 385 s.now) ≡ true }
    ensures { result + 1 ≡ start_page (set_bytes.read (part at 385 s.now)) }
{
    let first = set_first(s, at);
    match first {
        Some(p) => p.0 - 1,
        None => 0,
    }
}

// Whether the 594 bytes at a place are those of a segment in form.
pub fn segment_form(s: &[u8], at: usize) -> bool
    requires { at + 594 ≤ length s.now }
    ensures { result ≡ in_form segment_bytes segment_form (part at 594 s.now) }
{
    if !set_form(s, at + 16) {
        return false;
    }
    let below = before_first(s, at + 16);
    frames::frames_form(s, at + 401, below)
}

// The segment that the 594 bytes at a place spell.
pub fn segment_read(s: &[u8], at: usize) -> SegmentIdx
    requires { at + 594 ≤ length s.now }
    ensures { result ≡ segment_laid (segment_bytes.read (part at 594 s.now)) }
{
    let sid = load_id(s, at);
    let pages = set_read(s, at + 16);
    let len = frames::frames_count(s, at + 401);
    let frames = frames::frames_read(s, at + 401);
    SegmentIdx {
        sid,
        pages,
        len,
        frames,
    }
}

// A segment, zero past what counts, over the 594 bytes at a place.
pub fn segment_write(s: &mut [u8], at: usize, x: SegmentIdx)
    requires at_in_bounds { at + 594 ≤ length s.old }
    requires x_value { segment_laid (segment_says x) ≡ x }
    ensures { s.new ≡ put at (segment_bytes.spell (segment_says x)) s.old }
{
    let sid = x.sid;
    let pages = x.pages;
    let fs = x.frames;
    store_id(s, at, sid);
    set_write(s, at + 16, pages);
    frames::frames_write(s, at + 401, x.len, fs);
}

// Whether the 417 bytes at a place are those of a range whose set is in form.
pub fn range_form(s: &[u8], at: usize) -> bool
    requires { at + 417 ≤ length s.now }
    ensures { result ≡ in_form part_bytes part_form (part at 417 s.now) }
{
    set_form(s, at + 32)
}

// The range that the 417 bytes at a place spell.
pub fn range_read(s: &[u8], at: usize) -> SegmentRange
    requires { at + 417 ≤ length s.now }
    ensures { result ≡ range_laid (part_bytes.read (part at 417 s.now)) }
{
    let sid = load_id(s, at);
    let start = load64(s, at + 16);
    let end = load64(s, at + 24);
    let pages = set_read(s, at + 32);
    SegmentRange {
        sid,
        start,
        end,
        pages,
    }
}

// A range, its set zero past what counts, over the 417 bytes at a place.
pub fn range_write(s: &mut [u8], at: usize, x: SegmentRange)
    requires at_in_bounds { at + 417 ≤ length s.old }
    requires x_value { range_laid (range_says x) ≡ x }
    ensures { s.new ≡ put at (part_bytes.spell (range_says x)) s.old }
{
    let sid = x.sid;
    let pages = x.pages;
    store_id(s, at, sid);
    store64(s, at + 16, x.start);
    store64(s, at + 24, x.end);
    set_write(s, at + 32, pages);
}
