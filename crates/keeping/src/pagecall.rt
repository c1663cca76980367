// Present pages.
ghost use Rattle.rules.specs.Calls.{marking, unmarking, unmarking_all};
ghost use Rattle.layout.specs.Tables.{presence_in, presence_ok};
ghost use Rattle.keeping.specs.Frame.{Keeps};
ghost use Rattle.keeping.specs.Stays.{StaysFormed};
ghost use Rattle.keeping.specs.Holding.{presence_alone};

use arguments::Reply;
use boundary::pagecall::{sigatuda_page_mark, sigatuda_page_remove, sigatuda_pages_remove};

// Marking a page present.
pub fn page_mark(presence: &mut [u8], sid: [u8; 16], page: u32) -> Reply
    ensures keeps { Keeps (presence_alone (presence_in presence.old)) (marking sid page) (presence_alone (presence_in presence.new)) }
    ensures stays_formed { StaysFormed presence_ok presence.old presence.new }
{
    sigatuda_page_mark(presence, &sid, page)
}

// Removing a present page.
pub fn page_remove(presence: &mut [u8], sid: &[u8; 16], page: u32) -> Reply
    ensures keeps { Keeps (presence_alone (presence_in presence.old)) (unmarking sid.now page) (presence_alone (presence_in presence.new)) }
    ensures stays_formed { StaysFormed presence_ok presence.old presence.new }
{
    sigatuda_page_remove(presence, sid, page)
}

// Removing a range of present pages.
pub fn pages_remove(presence: &mut [u8], sid: &[u8; 16], first: u32, last: u32) -> Reply
    ensures keeps { Keeps (presence_alone (presence_in presence.old)) (unmarking_all sid.now first last) (presence_alone (presence_in presence.new)) }
    ensures stays_formed { StaysFormed presence_ok presence.old presence.new }
{
    sigatuda_pages_remove(presence, sid, first, last)
}
