// Segments and their frames.
ghost use Rattle.refusals.specs.Refusals.{AsFound};

use arguments::Reply;
use boundary::segments::{
    sigatuda_frame_bytes, sigatuda_frame_list, sigatuda_frame_of_page, sigatuda_join,
};

// The frames of a segment: refused, it leaves the list and the number of its items as found.
pub fn frame_list(segment: &[u8], list: &mut [u8], items: &mut u32) -> Reply
    ensures as_found { AsFound result list.old list.new }
    ensures as_found_2 { AsFound result items.old items.new }
{
    sigatuda_frame_list(segment, list, items)
}

// The frame of a page: refused, it leaves the place of the answer as found.
pub fn frame_of_page(segment: &[u8], page: u32, out: &mut [u8]) -> Reply
    ensures { AsFound result out.old out.new }
{
    sigatuda_frame_of_page(segment, page, out)
}

// The bytes of a page's frame: refused, it leaves the place of the answer as found.
pub fn frame_bytes<'a>(segment: &[u8], page: u32, lent: &'a [u8], part: &mut &'a [u8]) -> Reply
    ensures { AsFound result part.old.now part.new.now }
{
    sigatuda_frame_bytes(segment, page, lent, part)
}

// Joining two ranges: refused, it leaves the place of the answer as found.
pub fn join(a: &[u8], b: &[u8], out: &mut [u8]) -> Reply
    ensures { AsFound result out.old out.new }
{
    sigatuda_join(a, b, out)
}
