// LSNs, page numbers and page counts: what stands before and after each.
ghost use Rattle.std.specs.Prelude.{◌≡◌};
ghost use Rattle.basics.specs.Answers.{done};
ghost use Rattle.basics.specs.Numbers.{next_lsn, prev_lsn, next_lsn_or_last, prev_lsn_or_first, next_page, prev_page, next_count, prev_count, end_page};
ghost use Rattle.arguments.specs.Replies.{value, value_or};

use arguments::{Reply, replies};
use basics::lsn::Lsn;
use basics::page_count::PageCount;
use basics::pageidx::PageIdx;

// The LSN after n: 1, 18.
pub fn sigatuda_lsn_next(n: u64, out: &mut u64) -> Reply
    ensures { (result, out.new) ≡ value (λ m. m) out.old (next_lsn n) }
{
    replies::put_lsn(Lsn(n).next(), out)
}

// The LSN before n, or nothing before the first: 1.
pub fn sigatuda_lsn_prev(n: u64, out: &mut u64) -> Reply
    ensures { (result, out.new) ≡ value_or (λ m. m) out.old (prev_lsn n) }
{
    replies::put_maybe_lsn(Lsn(n).checked_prev(), out)
}

// The LSN after n, and the last after itself: 1.
pub fn sigatuda_lsn_saturating_next(n: u64, out: &mut u64) -> Reply
    ensures { (result, out.new) ≡ value (λ m. m) out.old (next_lsn_or_last n) }
{
    replies::put_lsn(Lsn(n).saturating_next(), out)
}

// The LSN before n, and the first before itself: 1.
pub fn sigatuda_lsn_saturating_prev(n: u64, out: &mut u64) -> Reply
    ensures { (result, out.new) ≡ value (λ m. m) out.old (prev_lsn_or_first n) }
{
    replies::put_lsn(Lsn(n).saturating_prev(), out)
}

// The page after p, and the last after itself: 1.
pub fn sigatuda_page_next(p: u32, out: &mut u32) -> Reply
    ensures { (result, out.new) ≡ value (λ m. m) out.old (next_page p) }
{
    replies::put_page(PageIdx(p).saturating_next(), out)
}

// The page before p, and the first before itself: 1.
pub fn sigatuda_page_prev(p: u32, out: &mut u32) -> Reply
    ensures { (result, out.new) ≡ value (λ m. m) out.old (prev_page p) }
{
    replies::put_page(PageIdx(p).saturating_prev(), out)
}

// One page more, and the highest count after itself.
pub fn sigatuda_count_next(n: u32, out: &mut u32) -> Reply
    ensures { (result, out.new) ≡ value (λ m. m) out.old (done (next_count n)) }
{
    *out = PageCount(n).saturating_incr().0;
    Reply { code: 0, found: 1 }
}

// One page less, and no page after none.
pub fn sigatuda_count_prev(n: u32, out: &mut u32) -> Reply
    ensures { (result, out.new) ≡ value (λ m. m) out.old (done (prev_count n)) }
{
    *out = PageCount(n).saturating_decr().0;
    Reply { code: 0, found: 1 }
}

// The last of n pages, or nothing where there is none.
pub fn sigatuda_count_last_page(n: u32, out: &mut u32) -> Reply
    ensures { (result, out.new) ≡ value_or (λ m. m) out.old (done (end_page n)) }
{
    replies::put_maybe_page(PageCount(n).last_pageidx(), out)
}
