// The calls on present pages: whether a page is, mark one, remove one, remove a range.
ghost use Rattle.std.specs.Prelude.{◌≡◌};
ghost use Rattle.basics.specs.Answers.{code};
ghost use Rattle.rules.specs.Reads.{page_present, page_mark, page_remove, pages_remove};
ghost use Rattle.layout.specs.Records.{present_bytes};
ghost use Rattle.layout.specs.Tables.{presence_in, presence_ok};
ghost use Rattle.layout.specs.Lent.{lent, after};
ghost use Rattle.arguments.specs.Replies.{numbered_reply, yes_or_no};

use arguments::{Reply, replies};
use basics::pageidx::PageIdx;
use presencecalls::{page_mark, page_present, page_remove, pages_remove};

// Whether a page of a segment is present: 20, 1.
pub fn sigatuda_page_present(presence: &[u8], sid: &[u8; 16], page: u32) -> Reply
    ensures { result ≡ yes_or_no (lent (presence_ok presence.now) (page_present (presence_in presence.now) sid.now page)) }
{
    replies::yes_or_no(page_present(presence, *sid, PageIdx(page)))
}

// A page of a segment marked present; where it is already, nothing changes: 20, 1, 19.
pub fn sigatuda_page_mark(presence: &mut [u8], sid: &[u8; 16], page: u32) -> Reply
    ensures value { result ≡ numbered_reply (code (lent (presence_ok presence.old) (page_mark (presence_in presence.old) sid.now page))) }
    ensures presence_after { presence.new ≡ after present_bytes (λ t. t) presence.old (lent (presence_ok presence.old) (page_mark (presence_in presence.old) sid.now page)) }
{
    replies::numbered(page_mark(presence, *sid, PageIdx(page)))
}

// A page of a segment is present no more; where it is not, nothing changes: 20, 1.
pub fn sigatuda_page_remove(presence: &mut [u8], sid: &[u8; 16], page: u32) -> Reply
    ensures value { result ≡ numbered_reply (code (lent (presence_ok presence.old) (page_remove (presence_in presence.old) sid.now page))) }
    ensures presence_after { presence.new ≡ after present_bytes (λ t. t) presence.old (lent (presence_ok presence.old) (page_remove (presence_in presence.old) sid.now page)) }
{
    replies::numbered(page_remove(presence, *sid, PageIdx(page)))
}

// The pages of a segment from first to last are present no more; where none is, nothing changes: 20, 1, 2.
pub fn sigatuda_pages_remove(presence: &mut [u8], sid: &[u8; 16], first: u32, last: u32) -> Reply
    ensures value { result ≡ numbered_reply (code (lent (presence_ok presence.old) (pages_remove (presence_in presence.old) sid.now first last))) }
    ensures presence_after { presence.new ≡ after present_bytes (λ t. t) presence.old (lent (presence_ok presence.old) (pages_remove (presence_in presence.old) sid.now first last)) }
{
    replies::numbered(pages_remove(presence, *sid, PageIdx(first), PageIdx(last)))
}
