// Checkpoints, the page index and presence: the three tables whose record is its key (docs/TABLES.md).
// A table is checked in one pass that carries the numbers of the record before, so that each byte is loaded once.
#![tactic(auto)]

ghost use Rattle.std.specs.Prelude.{◌≡◌, ℕ, ◌+◌, ◌*◌, ◌<◌, ◌≤◌, ◌&&◌, length, nat_le, refl};
ghost use Rattle.octets.specs.Bytes.{part};
ghost use Rattle.octets.specs.Order.{is_less};
ghost use Rattle.table.specs.Table.{count_of, cap_of};
ghost use Rattle.rules.specs.Forms.{checkpoint_form, entry_form, present_form};
ghost use Rattle.layout.specs.Codecs.{in_form};
ghost use Rattle.layout.specs.Records.{log_page_lsn_bytes, sid_page_bytes, checkpoint_bytes, entry_bytes, present_bytes};
ghost use Rattle.layout.specs.Tables.{checkpoints_ok, index_ok, presence_ok};
ghost use Rattle.entries.specs.Keys.{Keyed, Checkpoints, Index, Presence, size_of, table_ok, rows_ok, row_of, row_order};

use basics::id::{LogId, SegmentId};
use basics::lsn::Lsn;
use basics::pageidx::PageIdx;
use layout::{CHECKPOINT, ENTRY, PRESENT};

// A record as numbers: the halves of its identifier, its page and its LSN as its bytes have them, 0 where it has none.
#[derive(Clone, Copy)]
struct Row {
    formed: bool,
    high: u64,
    low: u64,
    page: u64,
    lsn: u64,
}

// A table whose record is its key, a type for each of the three.
trait KeyTable {
    // Which of the tables of specs/Keys it is.
    ghost which: { Keyed };

    // A record's number of bytes.
    const SIZE: usize;

    ghost SIZE: { ℕ };

    // The record at a place as numbers: all are loaded before any is tested.
    fn row(s: &[u8], at: usize) -> Row
        requires { at + size_of which ≤ length s.now }
        ensures { result ≡ row_of which (part at (size_of which) s.now) };

    // A law: the code's number of bytes is that of the table.
    ghost sized: { SIZE ≡ size_of which };
}

struct CheckpointTable;

struct IndexTable;

struct PresenceTable;

// A checkpoint is in form where its reserved byte is 0 and its complemented LSN is not that of LSN 0.
impl KeyTable for CheckpointTable {
    ghost which = { Checkpoints };

    const SIZE: usize = CHECKPOINT;

    ghost SIZE = { 25 };

    ghost sized = { refl };

    fn row(s: &[u8], at: usize) -> Row {
        let reserved = octets::load8(s, at);
        let high = octets::load64(s, at + 1);
        let low = octets::load64(s, at + 9);
        let lsn = octets::load64(s, at + 17);
        Row {
            formed: (reserved == 0) & (lsn != u64::MAX),
            high,
            low,
            page: 0,
            lsn,
        }
    }
}

// An index entry likewise, and where its page is not 0.
impl KeyTable for IndexTable {
    ghost which = { Index };

    const SIZE: usize = ENTRY;

    ghost SIZE = { 29 };

    ghost sized = { refl };

    fn row(s: &[u8], at: usize) -> Row {
        let reserved = octets::load8(s, at);
        let high = octets::load64(s, at + 1);
        let low = octets::load64(s, at + 9);
        let page = octets::load32(s, at + 17) as u64;
        let lsn = octets::load64(s, at + 21);
        Row {
            formed: (reserved == 0) & (page != 0) & (lsn != u64::MAX),
            high,
            low,
            page,
            lsn,
        }
    }
}

// A present page is in form where its reserved byte is 0 and its complemented page is not that of page 0.
impl KeyTable for PresenceTable {
    ghost which = { Presence };

    const SIZE: usize = PRESENT;

    ghost SIZE = { 21 };

    ghost sized = { refl };

    fn row(s: &[u8], at: usize) -> Row {
        let reserved = octets::load8(s, at);
        let high = octets::load64(s, at + 1);
        let low = octets::load64(s, at + 9);
        let page = octets::load32(s, at + 17) as u64;
        Row {
            formed: (reserved == 0) & (page != u32::MAX as u64),
            high,
            low,
            page,
            lsn: 0,
        }
    }
}

// Whether the bytes at a place are a checkpoint in form.
pub fn checkpoint_form(s: &[u8], at: usize) -> bool
    requires { at + 25 ≤ length s.now }
    ensures { result ≡ in_form checkpoint_bytes checkpoint_form (part at 25 s.now) }
{
    CheckpointTable::row(s, at).formed
}

// Whether the bytes at a place are an index entry in form.
pub fn entry_form(s: &[u8], at: usize) -> bool
    requires { at + 29 ≤ length s.now }
    ensures { result ≡ in_form entry_bytes entry_form (part at 29 s.now) }
{
    IndexTable::row(s, at).formed
}

// Whether the bytes at a place are a present page in form.
pub fn present_form(s: &[u8], at: usize) -> bool
    requires { at + 21 ≤ length s.now }
    ensures { result ≡ in_form present_bytes present_form (part at 21 s.now) }
{
    PresenceTable::row(s, at).formed
}

// Whether the numbers of a record stand below those of another.
fn below(x: Row, y: Row) -> bool
    ensures { result ≡ is_less (row_order x y) }
{
    if x.high != y.high {
        return x.high < y.high;
    }
    if x.low != y.low {
        return x.low < y.low;
    }
    if x.page != y.page {
        return x.page < y.page;
    }
    x.lsn < y.lsn
}

// Whether t has a count that it can hold.
fn count_fits(t: &[u8], stride: usize) -> bool
    requires { 0 < stride }
    ensures { result ≡ (nat_le 2 (length t.now) && nat_le (count_of t.now) (cap_of stride t.now)) }
{
    if t.len() < 2 {
        return false;
    }
    table::count(t) <= table::capacity(t, stride)
}

// Whether the keys of the first n records strictly rise and each is in form.
fn rows_formed<T: KeyTable>(s: &[u8], n: usize) -> bool
    requires { 2 + n * size_of T.which ≤ length s.now }
    ensures { result ≡ rows_ok T.which n s.now }
{
    if n == 0 {
        return true;
    }
    let mut last = T::row(s, 2);
    if !last.formed {
        return false;
    }
    for i in 1..n {
        let row = T::row(s, 2 + i * T::SIZE);
        if !row.formed {
            return false;
        }
        if !below(last, row) {
            return false;
        }
        last = row;
    }
    true
}

// Whether t is a table: a count that it can hold, keys that strictly rise, each record in form (20).
fn formed<T: KeyTable>(t: &[u8]) -> bool
    ensures { result ≡ table_ok T.which t.now }
{
    if !count_fits(t, T::SIZE) {
        return false;
    }
    rows_formed::<T>(t, table::count(t))
}

// Whether t is a table of checkpoints.
pub fn checkpoints_formed(t: &[u8]) -> bool
    ensures { result ≡ checkpoints_ok t.now }
{
    formed::<CheckpointTable>(t)
}

// Whether t is a page index.
pub fn index_formed(t: &[u8]) -> bool
    ensures { result ≡ index_ok t.now }
{
    formed::<IndexTable>(t)
}

// Whether t is a table of present pages.
pub fn presence_formed(t: &[u8]) -> bool
    ensures { result ≡ presence_ok t.now }
{
    formed::<PresenceTable>(t)
}

// The key of the index entry of a page at an LSN of a log.
pub fn entry_key(log: LogId, page: PageIdx, lsn: Lsn) -> [u8; 29]
    ensures { result ≡ log_page_lsn_bytes.spell (log, (page.0, lsn.0)) }
{
    let mut key = [0u8; 29];
    octets::store_id(&mut key, 1, log);
    octets::store32(&mut key, 17, page.0);
    octets::store64(&mut key, 21, u64::MAX - lsn.0);
    key
}

// The key of a segment's page that is present.
pub fn present_key(sid: SegmentId, page: PageIdx) -> [u8; 21]
    ensures { result ≡ sid_page_bytes.spell (sid, page.0) }
{
    let mut key = [0u8; 21];
    octets::store_id(&mut key, 1, sid);
    octets::store32(&mut key, 17, u32::MAX - page.0);
    key
}

// The LSN of the checkpoint at a place.
pub fn checkpoint_lsn(s: &[u8], at: usize) -> Lsn
    requires { at + 25 ≤ length s.now }
    ensures { result.0 ≡ (checkpoint_bytes.read (part at 25 s.now)).lsn }
{
    Lsn(u64::MAX - octets::load64(s, at + 17))
}

// The LSN of the index entry at a place.
pub fn entry_lsn(s: &[u8], at: usize) -> Lsn
    requires { at + 29 ≤ length s.now }
    ensures { result.0 ≡ (entry_bytes.read (part at 29 s.now)).lsn }
{
    Lsn(u64::MAX - octets::load64(s, at + 21))
}

// The page of the index entry at a place.
pub fn entry_page(s: &[u8], at: usize) -> PageIdx
    requires { at + 29 ≤ length s.now }
    ensures { result.0 ≡ (entry_bytes.read (part at 29 s.now)).page }
{
    PageIdx(octets::load32(s, at + 17))
}

// The present page at a place.
pub fn present_page(s: &[u8], at: usize) -> PageIdx
    requires { at + 21 ≤ length s.now }
    ensures { result.0 ≡ (present_bytes.read (part at 21 s.now)).page }
{
    PageIdx(u32::MAX - octets::load32(s, at + 17))
}
