// LSNs and page numbers.
ghost use Rattle.refusals.specs.Refusals.{AsFound};

use arguments::Reply;
use boundary::numbers::{
    sigatuda_lsn_next, sigatuda_lsn_prev, sigatuda_lsn_saturating_next,
    sigatuda_lsn_saturating_prev, sigatuda_page_next, sigatuda_page_prev,
};

// The LSN after one: refused, it leaves the place of the answer as found.
pub fn lsn_next(n: u64, out: &mut u64) -> Reply
    ensures { AsFound result out.old out.new }
{
    sigatuda_lsn_next(n, out)
}

// The LSN before one: refused, it leaves the place of the answer as found.
pub fn lsn_prev(n: u64, out: &mut u64) -> Reply
    ensures { AsFound result out.old out.new }
{
    sigatuda_lsn_prev(n, out)
}

// The LSN after one, or the last: refused, it leaves the place of the answer as found.
pub fn lsn_saturating_next(n: u64, out: &mut u64) -> Reply
    ensures { AsFound result out.old out.new }
{
    sigatuda_lsn_saturating_next(n, out)
}

// The LSN before one, or the first: refused, it leaves the place of the answer as found.
pub fn lsn_saturating_prev(n: u64, out: &mut u64) -> Reply
    ensures { AsFound result out.old out.new }
{
    sigatuda_lsn_saturating_prev(n, out)
}

// The page after one: refused, it leaves the place of the answer as found.
pub fn page_next(p: u32, out: &mut u32) -> Reply
    ensures { AsFound result out.old out.new }
{
    sigatuda_page_next(p, out)
}

// The page before one: refused, it leaves the place of the answer as found.
pub fn page_prev(p: u32, out: &mut u32) -> Reply
    ensures { AsFound result out.old out.new }
{
    sigatuda_page_prev(p, out)
}
