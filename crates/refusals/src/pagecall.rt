// Present pages.
ghost use Rattle.refusals.specs.Refusals.{AsFound};

use arguments::Reply;
use boundary::pagecall::{sigatuda_page_mark, sigatuda_page_remove, sigatuda_pages_remove};

// Marking a page present: refused, it leaves the present pages as found.
pub fn page_mark(presence: &mut [u8], sid: &[u8; 16], page: u32) -> Reply
    ensures { AsFound result presence.old presence.new }
{
    sigatuda_page_mark(presence, sid, page)
}

// Removing a present page: refused, it leaves the present pages as found.
pub fn page_remove(presence: &mut [u8], sid: &[u8; 16], page: u32) -> Reply
    ensures { AsFound result presence.old presence.new }
{
    sigatuda_page_remove(presence, sid, page)
}

// Removing a range of present pages: refused, it leaves the present pages as found.
pub fn pages_remove(presence: &mut [u8], sid: &[u8; 16], first: u32, last: u32) -> Reply
    ensures { AsFound result presence.old presence.new }
{
    sigatuda_pages_remove(presence, sid, first, last)
}
