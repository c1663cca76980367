// The table of present pages: lookups, marks and removals, in the words of document 01's tables. A record is its key.
#![tactic(auto)]

ghost use Rattle.std.specs.Prelude.{◌≡◌, ◌<◌, true};
ghost use Rattle.basics.specs.Orders.{sid_page};
ghost use Rattle.rules.specs.Lists.{any, is_some};
ghost use Rattle.rules.specs.Records.{present_key};
ghost use Rattle.rules.specs.Tables.{get_present, store, remove, fits};
ghost use Rattle.rules.specs.Reads.{present_in};
ghost use Rattle.layout.specs.Records.{present_bytes};
ghost use Rattle.layout.specs.Tables.{presence_in, presence_ok, laid_over};
ghost use Rattle.presence.specs.Pages.{page_of, of_segment};

use basics::id;
use basics::id::SegmentId;
use basics::pageidx::PageIdx;
use entries::present_key;
use layout::PRESENT;

// Whether a page of a segment is present.
pub fn is_present(t: &[u8], sid: SegmentId, page: PageIdx) -> bool
    requires { presence_ok t.now ≡ true }
    ensures { result ≡ is_some (get_present (presence_in t.now) sid page.0) }
{
    let key = present_key(sid, page);
    match table::find(t, PRESENT, PRESENT, &key) {
        Ok(_) => true,
        Err(_) => false,
    }
}

// Whether any page of a segment is present.
pub fn any_present(t: &[u8], sid: SegmentId) -> bool
    requires { presence_ok t.now ≡ true }
    ensures { result ≡ any (of_segment sid) (presence_in t.now).rows }
{
    let key = present_key(sid, PageIdx(4294967295));
    let i = table::from_key(t, PRESENT, PRESENT, &key);
    if i == table::count(t) {
        return false;
    }
    id::same(sid, octets::load_id(t, 2 + i * PRESENT + 1))
}

// Whether there is room to mark a page present: it is, or one record more fits.
pub fn room_for_page(t: &[u8], sid: SegmentId, page: PageIdx) -> bool
    requires { (presence_ok t.now ≡ true) × (0 < page.0) }
    ensures { result ≡ fits (store present_key sid_page (page_of sid page.0) (presence_in t.now)) }
{
    let key = present_key(sid, page);
    table::room(t, PRESENT, PRESENT, &key)
}

// A page is marked present; there is room for it.
pub fn put_page(t: &mut [u8], sid: SegmentId, page: PageIdx)
    requires t_value { (presence_ok t.old ≡ true) × (0 < page.0) }
    requires t_value_2 { fits (store present_key sid_page (page_of sid page.0) (presence_in t.old)) ≡ true }
    ensures { t.new ≡ laid_over present_bytes (store present_key sid_page (page_of sid page.0) (presence_in t.old)) t.old }
{
    let key = present_key(sid, page);
    table::put(t, PRESENT, PRESENT, &key);
}

// The pages of a segment from one to another are present no more; where none is, nothing changes.
pub fn remove_pages(t: &mut [u8], sid: SegmentId, first: PageIdx, last: PageIdx)
    requires { presence_ok t.old ≡ true }
    ensures { t.new ≡ laid_over present_bytes (remove (present_in sid first.0 last.0) (presence_in t.old)) t.old }
{
    let from_key = present_key(sid, last);
    let to_key = present_key(sid, first);
    let run = table::between(t, PRESENT, PRESENT, &from_key, &to_key);
    let from = run.from;
    let to = run.to;
    if to <= from {
        return;
    }
    batch::remove_run(t, PRESENT, from, to);
}
