// Page sets.
ghost use Rattle.refusals.specs.Refusals.{AsFound};

use arguments::Reply;
use boundary::sets::{
    sigatuda_set_cut, sigatuda_set_first, sigatuda_set_insert, sigatuda_set_last,
    sigatuda_set_range, sigatuda_set_remove, sigatuda_set_size, sigatuda_set_truncate,
    sigatuda_set_union,
};

// The pages of a range: refused, it leaves the place of the answer as found.
pub fn set_range(first: u32, last: u32, out: &mut [u8]) -> Reply
    ensures { AsFound result out.old out.new }
{
    sigatuda_set_range(first, last, out)
}

// A set with a page inserted: refused, it leaves the place of the answer as found.
pub fn set_insert(set: &[u8], page: u32, out: &mut [u8]) -> Reply
    ensures { AsFound result out.old out.new }
{
    sigatuda_set_insert(set, page, out)
}

// The pages of either set: refused, it leaves the place of the answer as found.
pub fn set_union(a: &[u8], b: &[u8], out: &mut [u8]) -> Reply
    ensures { AsFound result out.old out.new }
{
    sigatuda_set_union(a, b, out)
}

// The number of pages of a set: refused, it leaves the place of the answer as found.
pub fn set_size(set: &[u8], out: &mut u32) -> Reply
    ensures { AsFound result out.old out.new }
{
    sigatuda_set_size(set, out)
}

// The first page of a set: refused, it leaves the place of the answer as found.
pub fn set_first(set: &[u8], out: &mut u32) -> Reply
    ensures { AsFound result out.old out.new }
{
    sigatuda_set_first(set, out)
}

// The last page of a set: refused, it leaves the place of the answer as found.
pub fn set_last(set: &[u8], out: &mut u32) -> Reply
    ensures { AsFound result out.old out.new }
{
    sigatuda_set_last(set, out)
}

// A set truncated: refused, it leaves the place of the answer as found.
pub fn set_truncate(set: &[u8], count: u32, out: &mut [u8]) -> Reply
    ensures { AsFound result out.old out.new }
{
    sigatuda_set_truncate(set, count, out)
}

// Cut: refused, it leaves both places of the answer as found.
pub fn set_cut(left: &[u8], right: &[u8], common: &mut [u8], rest: &mut [u8]) -> Reply
    ensures as_found { AsFound result common.old common.new }
    ensures as_found_2 { AsFound result rest.old rest.new }
{
    sigatuda_set_cut(left, right, common, rest)
}

// A set without a range of pages: refused, it leaves the place of the answer as found.
pub fn set_remove(set: &[u8], first: u32, last: u32, out: &mut [u8]) -> Reply
    ensures { AsFound result out.old out.new }
{
    sigatuda_set_remove(set, first, last, out)
}
