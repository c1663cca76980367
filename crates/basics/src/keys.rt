// The keys of the tables, and how two of them stand. A field counts only where the fields before it are equal.
ghost use Rattle.std.specs.Prelude.{◌≡◌};
ghost use Rattle.octets.specs.Order.{ordering};
ghost use Rattle.basics.specs.Orders.{bytes, log_lsn, log_page_lsn, sid_page};
ghost use Rattle.basics.specs.Says.{log_ref_key, page_version_key, page_key, tag_key};

use crate::id;
use crate::id::{LogId, SegmentId};
use crate::logref::LogRef;
use crate::lsn::Lsn;
use crate::pageidx::PageIdx;
use std::cmp::Ordering;

// The key of an index entry: a page as a commit of a log wrote it.
#[derive(Clone, Copy)]
pub struct PageVersion {
    pub log: LogId,
    pub pageidx: PageIdx,
    pub lsn: Lsn,
}

// The key of a page that is present.
#[derive(Clone, Copy)]
pub struct PageKey {
    pub sid: SegmentId,
    pub pageidx: PageIdx,
}

// The name of a tag: the first `len` of its bytes.
#[derive(Clone, Copy)]
pub struct TagName {
    pub len: usize,
    pub bytes: [u8; 32],
}

// How two commits or two checkpoints stand: log up, LSN down.
pub fn compare_log_refs(a: LogRef, b: LogRef) -> Ordering
    ensures { ordering result ≡ log_lsn (log_ref_key a) (log_ref_key b) }
{
    id::compare(a.log, b.log).then(b.lsn.0.cmp(&a.lsn.0))
}

// How two index entries stand: log up, page up, LSN down.
pub fn compare_page_versions(a: PageVersion, b: PageVersion) -> Ordering
    ensures { ordering result ≡ log_page_lsn (page_version_key a) (page_version_key b) }
{
    let by_page = a.pageidx.0.cmp(&b.pageidx.0);
    let by_lsn = b.lsn.0.cmp(&a.lsn.0);
    id::compare(a.log, b.log).then(by_page).then(by_lsn)
}

// How two present pages stand: segment up, page down.
pub fn compare_page_keys(a: PageKey, b: PageKey) -> Ordering
    ensures { ordering result ≡ sid_page (page_key a) (page_key b) }
{
    id::compare(a.sid, b.sid).then(b.pageidx.0.cmp(&a.pageidx.0))
}

// How two tags stand: name up, a proper prefix first. A length above 32 stands for all the bytes.
pub fn compare_tags(a: TagName, b: TagName) -> Ordering
    ensures { ordering result ≡ bytes (tag_key a) (tag_key b) }
{
    let len_a = a.len.min(32);
    let len_b = b.len.min(32);
    let by_front = octets::compare(&a.bytes, 0, &b.bytes, 0, len_a.min(len_b));
    by_front.then(len_a.cmp(&len_b))
}
