// Page sets, in bytes.
ghost use Rattle.std.specs.Prelude.{◌≡◌, not};
ghost use Rattle.pageset.specs.Sets.{member};
ghost use Rattle.pageset.specs.Rules.{range_rule, insert_rule, union_rule, truncate_rule, cut_rule, left_rule, remove_rule, size_rule, first_rule, last_rule, contains_rule, any_rule, all_rule};
ghost use Rattle.arguments.specs.Args.{set_arg};
ghost use Rattle.arguments.specs.Replies.{value, value_or, yes_or_no, bit};
ghost use Rattle.arguments.specs.Sets.{LeavesSet, LeavesSetOr22, LeavesCut};

use arguments::sets::{put_cut, put_set, set_arg};
use arguments::{Reply, replies};
use basics::page_count::PageCount;
use basics::pageidx::PageIdx;
use pageset::SetAnswer;

// The pages from first to last: 1, 2, 3, 22.
pub fn sigatuda_set_range(first: u32, last: u32, out: &mut [u8]) -> Reply
    ensures { LeavesSetOr22 1 out.old (range_rule first last) (result, out.new) }
{
    put_set(pagecalls::from_range(PageIdx(first), PageIdx(last)), 1, out)
}

// The set with a page inserted, and whether the page was new: 1, 3, 22.
pub fn sigatuda_set_insert(set: &[u8], page: u32, out: &mut [u8]) -> Reply
    ensures { LeavesSetOr22 (bit (not (member (set_arg set.now) page))) out.old (insert_rule (set_arg set.now) page) (result, out.new) }
{
    let a = pagecalls::insert(set_arg(set), PageIdx(page));
    let code = a.code;
    let set = a.set;
    put_set(SetAnswer { code, set }, replies::bit(a.new), out)
}

// The pages of either set: 3, 22.
pub fn sigatuda_set_union(a: &[u8], b: &[u8], out: &mut [u8]) -> Reply
    ensures { LeavesSetOr22 1 out.old (union_rule (set_arg a.now) (set_arg b.now)) (result, out.new) }
{
    put_set(pagecalls::union(set_arg(a), set_arg(b)), 1, out)
}

// The number of pages of a set: 3.
pub fn sigatuda_set_size(set: &[u8], out: &mut u32) -> Reply
    ensures { (result, out.new) ≡ value (λ m. m) out.old (size_rule (set_arg set.now)) }
{
    replies::put_count(pagecalls::cardinality(set_arg(set)), out)
}

// The first page of a set, or nothing: 3.
pub fn sigatuda_set_first(set: &[u8], out: &mut u32) -> Reply
    ensures { (result, out.new) ≡ value_or (λ m. m) out.old (first_rule (set_arg set.now)) }
{
    replies::put_end(pagecalls::first(set_arg(set)), out)
}

// The last page of a set, or nothing: 3.
pub fn sigatuda_set_last(set: &[u8], out: &mut u32) -> Reply
    ensures { (result, out.new) ≡ value_or (λ m. m) out.old (last_rule (set_arg set.now)) }
{
    replies::put_end(pagecalls::last(set_arg(set)), out)
}

// Whether a page is in the set: 1, 3.
pub fn sigatuda_set_contains(set: &[u8], page: u32) -> Reply
    ensures { result ≡ yes_or_no (contains_rule (set_arg set.now) page) }
{
    replies::yes_or_no(pagecalls::contains(set_arg(set), PageIdx(page)))
}

// Whether some page from first to last is in the set: 1, 2, 3.
pub fn sigatuda_set_contains_any(set: &[u8], first: u32, last: u32) -> Reply
    ensures { result ≡ yes_or_no (any_rule (set_arg set.now) first last) }
{
    replies::yes_or_no(pagecalls::contains_any(set_arg(set), PageIdx(first), PageIdx(last)))
}

// Whether each page from first to last is in the set: 1, 2, 3.
pub fn sigatuda_set_contains_all(set: &[u8], first: u32, last: u32) -> Reply
    ensures { result ≡ yes_or_no (all_rule (set_arg set.now) first last) }
{
    replies::yes_or_no(pagecalls::contains_all(set_arg(set), PageIdx(first), PageIdx(last)))
}

// The pages of a set that are at most a count: 3.
pub fn sigatuda_set_truncate(set: &[u8], count: u32, out: &mut [u8]) -> Reply
    ensures { LeavesSet 1 out.old (truncate_rule (set_arg set.now) count) (result, out.new) }
{
    put_set(pagecalls::truncate(set_arg(set), PageCount(count)), 1, out)
}

// The common pages of two sets, and the left set without them: 3.
pub fn sigatuda_set_cut(left: &[u8], right: &[u8], common: &mut [u8], rest: &mut [u8]) -> Reply
    ensures { LeavesCut common.old rest.old (cut_rule (set_arg left.now) (set_arg right.now)) (left_rule (set_arg left.now) (set_arg right.now)) (result, (common.new, rest.new)) }
{
    put_cut(pagecalls::cut(set_arg(left), set_arg(right)), common, rest)
}

// The pages of a set that do not lie from first to last: 1, 2, 3.
pub fn sigatuda_set_remove(set: &[u8], first: u32, last: u32, out: &mut [u8]) -> Reply
    ensures { LeavesSet 1 out.old (remove_rule (set_arg set.now) first last) (result, out.new) }
{
    put_set(
        pagecalls::remove_page_range(set_arg(set), PageIdx(first), PageIdx(last)),
        1,
        out,
    )
}
