// Sets in normal form: what each operation makes of them.
ghost use Rattle.std.specs.Prelude.{◌≡◌, ℕ, ◌^◌, ◌<◌, ◌≤◌, true, false, not, ◌&&◌, ◌||◌, if◌then◌else◌, nat_eq, nat_le};
ghost use Rattle.basics.specs.Answers.{done};
ghost use Rattle.basics.specs.Says.{maybe_page_says};
ghost use Rattle.pageset.specs.Sets.{member, normal};
ghost use Rattle.pageset.specs.Counts.{count, lowest, highest, any_of, all_of};
ghost use Rattle.pageset.specs.Rules.{within};
ghost use Rattle.pageset.specs.Says.{empty_set, refused_set, IsSet, GivesOr22};

use crate::{CutAnswer, PageSet, SetAnswer, Window, bits, form, walk};
use basics::page_count::PageCount;
use basics::pageidx::PageIdx;

// The set of no page.
pub fn empty() -> PageSet
    ensures { result ≡ empty_set }
{
    PageSet {
        len: 0,
        windows: [Window { index: 0, mask: 0 }; 32],
    }
}

// A refusal's number; its value is the empty set.
pub fn refusal(code: u32) -> SetAnswer
    ensures { result ≡ refused_set code }
{
    let set = empty();
    SetAnswer { code, set }
}

// Whether a set has no page.
pub fn is_empty(s: PageSet) -> bool
    requires { normal s ≡ true }
    ensures { result ≡ not (any_of (member s) (2 ^ 32)) }
{
    s.len == 0
}

// The number of pages of a set: ones counted over the masks.
pub fn cardinality(s: PageSet) -> PageCount
    requires { normal s ≡ true }
    ensures { result.0 ≡ count (member s) (2 ^ 32) }
{
    let mut total: u32 = 0;
    for w in &s.windows[..s.len] {
        total += w.mask.count_ones();
    }
    PageCount(total)
}

// The first page of a set, or nothing: trailing zeros of the first mask.
pub fn first(s: PageSet) -> Option<PageIdx>
    requires { normal s ≡ true }
    ensures { maybe_page_says result ≡ lowest (member s) (2 ^ 32) }
{
    let n = s.len;
    if n == 0 {
        return None;
    }
    let ws = s.windows;
    let w = ws[0];
    let b = u64::trailing_zeros(w.mask);
    Some(PageIdx(w.index * 64 + b))
}

// The last page of a set, or nothing: leading zeros of the last mask.
pub fn last(s: PageSet) -> Option<PageIdx>
    requires { normal s ≡ true }
    ensures { maybe_page_says result ≡ highest (member s) (2 ^ 32) }
{
    let n = s.len;
    if n == 0 {
        return None;
    }
    let ws = s.windows;
    let i = n - 1;
    let w = ws[i];
    let b = 63 - u64::leading_zeros(w.mask);
    Some(PageIdx(w.index * 64 + b))
}

// Whether a page is in the set.
pub fn contains(s: PageSet, p: PageIdx) -> bool
    requires { normal s ≡ true }
    ensures { result ≡ member s p.0 }
{
    form::has_page(s, p.0)
}

// The pages of a set from lo to hi, or those not from lo to hi.
fn selected(s: PageSet, lo: u32, hi: u32, inside: bool) -> PageSet
    requires s_value { normal s ≡ true }
    requires lo_nonzero { 0 < lo }
    ensures { IsSet (λ p. member s p && (if inside then within lo hi p else not (within lo hi p))) result }
{
    let mut windows = empty().windows;
    let mut len: usize = 0;
    for w in &s.windows[..s.len] {
        let q = w.index;
        let m = walk::picked(w.mask, bits::span_mask(q, lo, hi), inside);
        len = walk::put(&mut windows, len, q, m);
    }
    PageSet { len, windows }
}

// The pages of a set that are at most n.
pub fn truncate(s: PageSet, n: PageCount) -> PageSet
    requires { normal s ≡ true }
    ensures { IsSet (λ p. member s p && nat_le p n.0) result }
{
    selected(s, 1, n.0, true)
}

// The pages of a set from a to b.
pub fn span(s: PageSet, a: PageIdx, b: PageIdx) -> PageSet
    requires s_value { normal s ≡ true }
    requires a_nonzero { 0 < a.0 }
    ensures { IsSet (λ p. member s p && within a.0 b.0 p) result }
{
    selected(s, a.0, b.0, true)
}

// The pages of a set that do not lie from a to b.
pub fn remove_page_range(s: PageSet, a: PageIdx, b: PageIdx) -> PageSet
    requires s_value { normal s ≡ true }
    requires a_nonzero { 0 < a.0 }
    ensures { IsSet (λ p. member s p && not (within a.0 b.0 p)) result }
{
    selected(s, a.0, b.0, false)
}

// Whether some page from a to b is in the set.
pub fn contains_any(s: PageSet, a: PageIdx, b: PageIdx) -> bool
    requires s_value { normal s ≡ true }
    requires a_nonzero { 0 < a.0 }
    ensures { result ≡ any_of (λ p. within a.0 b.0 p && member s p) (2 ^ 32) }
{
    !is_empty(span(s, a, b))
}

// Whether each page from a to b is in the set: as many are as there are pages from a to b.
pub fn contains_all(s: PageSet, a: PageIdx, b: PageIdx) -> bool
    requires s_value { normal s ≡ true }
    requires a_nonzero { 0 < a.0 }
    requires a_le_b { a.0 ≤ b.0 }
    ensures { result ≡ all_of (λ p. not (within a.0 b.0 p) || member s p) (2 ^ 32) }
{
    cardinality(span(s, a, b)).0 == b.0 - a.0 + 1
}

// The pages from a to b; 22 where they need over 32 windows.
pub fn from_range(a: PageIdx, b: PageIdx) -> SetAnswer
    requires a_nonzero { 0 < a.0 }
    requires a_le_b { a.0 ≤ b.0 }
    ensures { GivesOr22 result (done (within a.0 b.0)) }
{
    let lo = a.0;
    let hi = b.0;
    let end = hi / 64;
    if 31 < end - lo / 64 {
        return refusal(22);
    }
    let mut set = empty();
    for q in lo / 64..=end {
        set.push(q, bits::span_mask(q, lo, hi));
    }
    SetAnswer { code: 0, set }
}

// The set of one page.
pub fn single(p: PageIdx) -> PageSet
    requires { 0 < p.0 }
    ensures { IsSet (λ q. nat_eq q p.0) result }
{
    let page = p.0;
    let q = page / 64;
    let mut set = empty();
    set.push(q, bits::span_mask(q, page, page));
    set
}

// The pages of either set; 22 where they need over 32 windows. Both are walked together, the lower index first.
pub fn union(a: PageSet, b: PageSet) -> SetAnswer
    requires a_value { normal a ≡ true }
    requires b_value { normal b ≡ true }
    ensures { GivesOr22 result (done (λ p. member a p || member b p)) }
{
    let mut set = empty();
    let mut i: usize = 0;
    let mut k: usize = 0;
    // Kept: two walks that go at their own pace; no one iterator does it plainer.
    while i + k < a.len + b.len {
        if 32 <= set.len {
            return refusal(22);
        }
        let x = walk::head(a.len, i, a.windows[i.min(31)]);
        let y = walk::head(b.len, k, b.windows[k.min(31)]);
        let t = walk::next_turn(x, y);
        set.push(t.index, t.left | t.right);
        i += t.lefts;
        k += t.rights;
    }
    SetAnswer { code: 0, set }
}

// The common pages of two sets, and the left set without them. Both are walked together, the lower index first. Counts stand beside their arrays, and it is inlined, so that who
// asks for the common pages alone fills no other set.
#[inline]
pub fn cut(a: PageSet, b: PageSet) -> CutAnswer
    requires a_value { normal a ≡ true }
    requires b_value { normal b ≡ true }
    ensures { (result.code ≡ 0) × IsSet (λ p. member a p && member b p) result.common × IsSet (λ p. member a p && not (member b p)) result.left }
{
    let mut commons = empty().windows;
    let mut lefts = empty().windows;
    let mut met: usize = 0;
    let mut kept: usize = 0;
    let mut i: usize = 0;
    let mut k: usize = 0;
    // Kept: two walks that go at their own pace; no one iterator does it plainer.
    while i < a.len {
        let y = walk::head(b.len, k, b.windows[k.min(31)]);
        let t = walk::next_turn(a.windows[i], y);
        let rest = t.left & !t.right;
        met = walk::put(&mut commons, met, t.index, t.left & t.right);
        kept = walk::put(&mut lefts, kept, t.index, rest);
        i += t.lefts;
        k += t.rights;
    }
    let common = PageSet {
        len: met,
        windows: commons,
    };
    let left = PageSet {
        len: kept,
        windows: lefts,
    };
    CutAnswer {
        code: 0,
        common,
        left,
    }
}
