// The calls on present pages: whether a page is, mark one, remove one, remove a range. Each answers on every input: 20, then 1 for page 0.
#![tactic(auto)]

ghost use Rattle.std.specs.Prelude.{◌≡◌};
ghost use Rattle.basics.specs.Answers.{code};
ghost use Rattle.basics.specs.Refusals.{code_of};
ghost use Rattle.pagecalls.specs.Says.{yes_says};
ghost use Rattle.rules.specs.Reads.{page_present, page_mark, page_remove, pages_remove};
ghost use Rattle.layout.specs.Records.{present_bytes};
ghost use Rattle.layout.specs.Tables.{presence_in, presence_ok};
ghost use Rattle.layout.specs.Lent.{lent, after};

use basics::id::SegmentId;
use basics::pageidx::PageIdx;
use basics::refusal::Refusal;
use entries::presence_formed;
use presence::{is_present, put_page, remove_pages, room_for_page};

// Whether a page of a segment is present: 20, 1.
pub fn page_present(presence: &[u8], sid: SegmentId, page: PageIdx) -> Result<bool, Refusal>
    ensures { yes_says result ≡ lent (presence_ok presence.now) (page_present (presence_in presence.now) sid page.0) }
{
    if !presence_formed(presence) {
        return Err(Refusal::TableForm);
    }
    if page.0 == 0 {
        return Err(Refusal::Zero);
    }
    if is_present(presence, sid, page) {
        return Ok(true);
    }
    Ok(false)
}

// A page of a segment marked present; where it is already, nothing changes: 20, 1, 19.
pub fn page_mark(presence: &mut [u8], sid: SegmentId, page: PageIdx) -> Result<(), Refusal>
    ensures value { code_of result ≡ code (lent (presence_ok presence.old) (page_mark (presence_in presence.old) sid page.0)) }
    ensures presence_after { presence.new ≡ after present_bytes (λ t. t) presence.old (lent (presence_ok presence.old) (page_mark (presence_in presence.old) sid page.0)) }
{
    if !presence_formed(presence) {
        return Err(Refusal::TableForm);
    }
    if page.0 == 0 {
        return Err(Refusal::Zero);
    }
    if !room_for_page(presence, sid, page) {
        return Err(Refusal::NoRoom);
    }
    put_page(presence, sid, page);
    Ok(())
}

// A page of a segment is present no more; where it is not, nothing changes: 20, 1.
pub fn page_remove(presence: &mut [u8], sid: SegmentId, page: PageIdx) -> Result<(), Refusal>
    ensures value { code_of result ≡ code (lent (presence_ok presence.old) (page_remove (presence_in presence.old) sid page.0)) }
    ensures presence_after { presence.new ≡ after present_bytes (λ t. t) presence.old (lent (presence_ok presence.old) (page_remove (presence_in presence.old) sid page.0)) }
{
    if !presence_formed(presence) {
        return Err(Refusal::TableForm);
    }
    if page.0 == 0 {
        return Err(Refusal::Zero);
    }
    remove_pages(presence, sid, page, page);
    Ok(())
}

// The pages of a segment from first to last are present no more; where none is, nothing changes: 20, 1, 2.
pub fn pages_remove(
    presence: &mut [u8],
    sid: SegmentId,
    first: PageIdx,
    last: PageIdx,
) -> Result<(), Refusal>
    ensures value { code_of result ≡ code (lent (presence_ok presence.old) (pages_remove (presence_in presence.old) sid first.0 last.0)) }
    ensures presence_after { presence.new ≡ after present_bytes (λ t. t) presence.old (lent (presence_ok presence.old) (pages_remove (presence_in presence.old) sid first.0 last.0)) }
{
    if !presence_formed(presence) {
        return Err(Refusal::TableForm);
    }
    if first.0 == 0 {
        return Err(Refusal::Zero);
    }
    if last.0 == 0 {
        return Err(Refusal::Zero);
    }
    if last.0 < first.0 {
        return Err(Refusal::Reversed);
    }
    remove_pages(presence, sid, first, last);
    Ok(())
}
