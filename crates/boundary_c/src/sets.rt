// Page sets, in bytes.
ghost use Rattle.std.specs.Prelude.{◌≡◌, not};
ghost use Rattle.pageset.specs.Sets.{member};
ghost use Rattle.pageset.specs.Rules.{range_rule, insert_rule, union_rule, truncate_rule, cut_rule, left_rule, remove_rule, size_rule, first_rule, last_rule, contains_rule, any_rule, all_rule};
ghost use Rattle.arguments.specs.Args.{set_arg};
ghost use Rattle.arguments.specs.Replies.{value, value_or, yes_or_no, bit};
ghost use Rattle.arguments.specs.Sets.{LeavesSet, LeavesSetOr22, LeavesCut};

use arguments::Reply;

// The pages from first to last: 1, 2, 3, 22.
#[unsafe(no_mangle)]
pub extern "C" fn sigatuda_set_range(first: u32, last: u32, out: &mut [u8]) -> Reply
    ensures { LeavesSetOr22 1 out.old (range_rule first last) (result, out.new) }
{
    boundary::sets::sigatuda_set_range(first, last, out)
}

// The set with a page inserted, and whether the page was new: 1, 3, 22.
#[unsafe(no_mangle)]
pub extern "C" fn sigatuda_set_insert(set: &[u8], page: u32, out: &mut [u8]) -> Reply
    ensures { LeavesSetOr22 (bit (not (member (set_arg set.now) page))) out.old (insert_rule (set_arg set.now) page) (result, out.new) }
{
    boundary::sets::sigatuda_set_insert(set, page, out)
}

// The pages of either set: 3, 22.
#[unsafe(no_mangle)]
pub extern "C" fn sigatuda_set_union(a: &[u8], b: &[u8], out: &mut [u8]) -> Reply
    ensures { LeavesSetOr22 1 out.old (union_rule (set_arg a.now) (set_arg b.now)) (result, out.new) }
{
    boundary::sets::sigatuda_set_union(a, b, out)
}

// The number of pages of a set: 3.
#[unsafe(no_mangle)]
pub extern "C" fn sigatuda_set_size(set: &[u8], out: &mut u32) -> Reply
    ensures { (result, out.new) ≡ value (λ m. m) out.old (size_rule (set_arg set.now)) }
{
    boundary::sets::sigatuda_set_size(set, out)
}

// The first page of a set, or nothing: 3.
#[unsafe(no_mangle)]
pub extern "C" fn sigatuda_set_first(set: &[u8], out: &mut u32) -> Reply
    ensures { (result, out.new) ≡ value_or (λ m. m) out.old (first_rule (set_arg set.now)) }
{
    boundary::sets::sigatuda_set_first(set, out)
}

// The last page of a set, or nothing: 3.
#[unsafe(no_mangle)]
pub extern "C" fn sigatuda_set_last(set: &[u8], out: &mut u32) -> Reply
    ensures { (result, out.new) ≡ value_or (λ m. m) out.old (last_rule (set_arg set.now)) }
{
    boundary::sets::sigatuda_set_last(set, out)
}

// Whether a page is in the set: 1, 3.
#[unsafe(no_mangle)]
pub extern "C" fn sigatuda_set_contains(set: &[u8], page: u32) -> Reply
    ensures { result ≡ yes_or_no (contains_rule (set_arg set.now) page) }
{
    boundary::sets::sigatuda_set_contains(set, page)
}

// Whether some page from first to last is in the set: 1, 2, 3.
#[unsafe(no_mangle)]
pub extern "C" fn sigatuda_set_contains_any(set: &[u8], first: u32, last: u32) -> Reply
    ensures { result ≡ yes_or_no (any_rule (set_arg set.now) first last) }
{
    boundary::sets::sigatuda_set_contains_any(set, first, last)
}

// Whether each page from first to last is in the set: 1, 2, 3.
#[unsafe(no_mangle)]
pub extern "C" fn sigatuda_set_contains_all(set: &[u8], first: u32, last: u32) -> Reply
    ensures { result ≡ yes_or_no (all_rule (set_arg set.now) first last) }
{
    boundary::sets::sigatuda_set_contains_all(set, first, last)
}

// The pages of a set that are at most a count: 3.
#[unsafe(no_mangle)]
pub extern "C" fn sigatuda_set_truncate(set: &[u8], count: u32, out: &mut [u8]) -> Reply
    ensures { LeavesSet 1 out.old (truncate_rule (set_arg set.now) count) (result, out.new) }
{
    boundary::sets::sigatuda_set_truncate(set, count, out)
}

// The common pages of two sets, and the left set without them: 3.
#[unsafe(no_mangle)]
pub extern "C" fn sigatuda_set_cut(
    left: &[u8],
    right: &[u8],
    common: &mut [u8],
    rest: &mut [u8],
) -> Reply
    ensures { LeavesCut common.old rest.old (cut_rule (set_arg left.now) (set_arg right.now)) (left_rule (set_arg left.now) (set_arg right.now)) (result, (common.new, rest.new)) }
{
    boundary::sets::sigatuda_set_cut(left, right, common, rest)
}

// The pages of a set that do not lie from first to last: 1, 2, 3.
#[unsafe(no_mangle)]
pub extern "C" fn sigatuda_set_remove(set: &[u8], first: u32, last: u32, out: &mut [u8]) -> Reply
    ensures { LeavesSet 1 out.old (remove_rule (set_arg set.now) first last) (result, out.new) }
{
    boundary::sets::sigatuda_set_remove(set, first, last, out)
}
