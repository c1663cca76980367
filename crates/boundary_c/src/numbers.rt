// LSNs, page numbers and page counts: what stands before and after each.
ghost use Rattle.std.specs.Prelude.{◌≡◌};
ghost use Rattle.basics.specs.Answers.{done};
ghost use Rattle.basics.specs.Numbers.{next_lsn, prev_lsn, next_lsn_or_last, prev_lsn_or_first, next_page, prev_page, next_count, prev_count, end_page};
ghost use Rattle.arguments.specs.Replies.{value, value_or};

use arguments::Reply;

// The LSN after n: 1, 18.
#[unsafe(no_mangle)]
pub extern "C" fn sigatuda_lsn_next(n: u64, out: &mut u64) -> Reply
    ensures { (result, out.new) ≡ value (λ m. m) out.old (next_lsn n) }
{
    boundary::numbers::sigatuda_lsn_next(n, out)
}

// The LSN before n, or nothing before the first: 1.
#[unsafe(no_mangle)]
pub extern "C" fn sigatuda_lsn_prev(n: u64, out: &mut u64) -> Reply
    ensures { (result, out.new) ≡ value_or (λ m. m) out.old (prev_lsn n) }
{
    boundary::numbers::sigatuda_lsn_prev(n, out)
}

// The LSN after n, and the last after itself: 1.
#[unsafe(no_mangle)]
pub extern "C" fn sigatuda_lsn_saturating_next(n: u64, out: &mut u64) -> Reply
    ensures { (result, out.new) ≡ value (λ m. m) out.old (next_lsn_or_last n) }
{
    boundary::numbers::sigatuda_lsn_saturating_next(n, out)
}

// The LSN before n, and the first before itself: 1.
#[unsafe(no_mangle)]
pub extern "C" fn sigatuda_lsn_saturating_prev(n: u64, out: &mut u64) -> Reply
    ensures { (result, out.new) ≡ value (λ m. m) out.old (prev_lsn_or_first n) }
{
    boundary::numbers::sigatuda_lsn_saturating_prev(n, out)
}

// The page after p, and the last after itself: 1.
#[unsafe(no_mangle)]
pub extern "C" fn sigatuda_page_next(p: u32, out: &mut u32) -> Reply
    ensures { (result, out.new) ≡ value (λ m. m) out.old (next_page p) }
{
    boundary::numbers::sigatuda_page_next(p, out)
}

// The page before p, and the first before itself: 1.
#[unsafe(no_mangle)]
pub extern "C" fn sigatuda_page_prev(p: u32, out: &mut u32) -> Reply
    ensures { (result, out.new) ≡ value (λ m. m) out.old (prev_page p) }
{
    boundary::numbers::sigatuda_page_prev(p, out)
}

// One page more, and the highest count after itself.
#[unsafe(no_mangle)]
pub extern "C" fn sigatuda_count_next(n: u32, out: &mut u32) -> Reply
    ensures { (result, out.new) ≡ value (λ m. m) out.old (done (next_count n)) }
{
    boundary::numbers::sigatuda_count_next(n, out)
}

// One page less, and no page after none.
#[unsafe(no_mangle)]
pub extern "C" fn sigatuda_count_prev(n: u32, out: &mut u32) -> Reply
    ensures { (result, out.new) ≡ value (λ m. m) out.old (done (prev_count n)) }
{
    boundary::numbers::sigatuda_count_prev(n, out)
}

// The last of n pages, or nothing where there is none.
#[unsafe(no_mangle)]
pub extern "C" fn sigatuda_count_last_page(n: u32, out: &mut u32) -> Reply
    ensures { (result, out.new) ≡ value_or (λ m. m) out.old (done (end_page n)) }
{
    boundary::numbers::sigatuda_count_last_page(n, out)
}
