// The calls on page sets. Each answers on every input, sets that are not in normal form among them: the numbers 1, 2 and 3 of all arguments
// in turn, then 22.
#![tactic(auto)]

ghost use Rattle.std.specs.Prelude.{◌≡◌, false};
ghost use Rattle.basics.specs.Refusals.{code_of};
ghost use Rattle.pageset.specs.Rules.{range_fault, range_rule, insert_rule, new_rule, union_rule, truncate_rule, cut_rule, left_rule, remove_rule, size_rule, first_rule, last_rule, contains_rule, any_rule, all_rule};
ghost use Rattle.pageset.specs.Says.{Gives, GivesOr22, common, left, refused_set};
ghost use Rattle.pagecalls.specs.Says.{inserted, count_says, page_says, yes_says};

use basics::page_count::PageCount;
use basics::pageidx::PageIdx;
use basics::refusal::Refusal;
use pageset::{CutAnswer, PageSet, SetAnswer, form, sets};

// The set with a page inserted, and whether the page was new; or the number of a refusal, no, and the empty set.
#[derive(Clone, Copy)]
pub struct InsertAnswer {
    pub code: u32,
    pub new: bool,
    pub set: PageSet,
}

// Whether a range of pages may be asked for: 1 for page 0, 2 for a start above the end.
fn range_asked(a: PageIdx, b: PageIdx) -> Result<(), Refusal>
    ensures { code_of result ≡ range_fault a.0 b.0 }
{
    if a.0 == 0 {
        return Err(Refusal::Zero);
    }
    if b.0 == 0 {
        return Err(Refusal::Zero);
    }
    if b.0 < a.0 {
        return Err(Refusal::Reversed);
    }
    Ok(())
}

// The pages from a to b: 1, 2, 22.
pub fn from_range(a: PageIdx, b: PageIdx) -> SetAnswer
    ensures { GivesOr22 result (range_rule a.0 b.0) }
{
    match range_asked(a, b) {
        Err(refusal) => sets::refusal(refusal.number()),
        Ok(()) => sets::from_range(a, b),
    }
}

// The set with page p, and whether p was new: 1, 3, 22.
pub fn insert(s: PageSet, p: PageIdx) -> InsertAnswer
    ensures gives_or22 { GivesOr22 (inserted result) (insert_rule s p.0) }
    ensures result_after { result.new ≡ new_rule s p.0 result.code }
{
    if p.0 == 0 {
        return not_inserted(1);
    }
    if !form::is_normal(s) {
        return not_inserted(3);
    }
    let sum = sets::union(s, sets::single(p));
    if sum.code != 0 {
        return not_inserted(22);
    }
    let new = !sets::contains(s, p);
    let set = sum.set;
    InsertAnswer { code: 0, new, set }
}

// An insertion's refusal; its values are no and the empty set.
fn not_inserted(code: u32) -> InsertAnswer
    ensures { (inserted result ≡ refused_set code) × (result.new ≡ false) }
{
    let set = sets::empty();
    InsertAnswer {
        code,
        new: false,
        set,
    }
}

// The pages of either set: 3, 22.
pub fn union(a: PageSet, b: PageSet) -> SetAnswer
    ensures { GivesOr22 result (union_rule a b) }
{
    if !form::is_normal(a) {
        return sets::refusal(3);
    }
    if !form::is_normal(b) {
        return sets::refusal(3);
    }
    sets::union(a, b)
}

// The number of pages of a set: 3.
pub fn cardinality(s: PageSet) -> Result<PageCount, Refusal>
    ensures { count_says result ≡ size_rule s }
{
    if !form::is_normal(s) {
        return Err(Refusal::Form);
    }
    Ok(sets::cardinality(s))
}

// The first page of a set, or nothing: 3.
pub fn first(s: PageSet) -> Result<Option<PageIdx>, Refusal>
    ensures { page_says result ≡ first_rule s }
{
    if !form::is_normal(s) {
        return Err(Refusal::Form);
    }
    Ok(sets::first(s))
}

// The last page of a set, or nothing: 3.
pub fn last(s: PageSet) -> Result<Option<PageIdx>, Refusal>
    ensures { page_says result ≡ last_rule s }
{
    if !form::is_normal(s) {
        return Err(Refusal::Form);
    }
    Ok(sets::last(s))
}

// Whether page p is in the set: 1, 3.
pub fn contains(s: PageSet, p: PageIdx) -> Result<bool, Refusal>
    ensures { yes_says result ≡ contains_rule s p.0 }
{
    if p.0 == 0 {
        return Err(Refusal::Zero);
    }
    if !form::is_normal(s) {
        return Err(Refusal::Form);
    }
    Ok(sets::contains(s, p))
}

// Whether some page from a to b is in the set: 1, 2, 3.
pub fn contains_any(s: PageSet, a: PageIdx, b: PageIdx) -> Result<bool, Refusal>
    ensures { yes_says result ≡ any_rule s a.0 b.0 }
{
    range_asked(a, b)?;
    if !form::is_normal(s) {
        return Err(Refusal::Form);
    }
    Ok(sets::contains_any(s, a, b))
}

// Whether each page from a to b is in the set: 1, 2, 3.
pub fn contains_all(s: PageSet, a: PageIdx, b: PageIdx) -> Result<bool, Refusal>
    ensures { yes_says result ≡ all_rule s a.0 b.0 }
{
    range_asked(a, b)?;
    if !form::is_normal(s) {
        return Err(Refusal::Form);
    }
    Ok(sets::contains_all(s, a, b))
}

// The pages of a set that are at most n: 3.
pub fn truncate(s: PageSet, n: PageCount) -> SetAnswer
    ensures { Gives result (truncate_rule s n.0) }
{
    if !form::is_normal(s) {
        return sets::refusal(3);
    }
    let set = sets::truncate(s, n);
    SetAnswer { code: 0, set }
}

// The pages of a set that do not lie from a to b: 1, 2, 3.
pub fn remove_page_range(s: PageSet, a: PageIdx, b: PageIdx) -> SetAnswer
    ensures { Gives result (remove_rule s a.0 b.0) }
{
    match range_asked(a, b) {
        Err(refusal) => sets::refusal(refusal.number()),
        Ok(()) => {
            if !form::is_normal(s) {
                return sets::refusal(3);
            }
            let set = sets::remove_page_range(s, a, b);
            SetAnswer { code: 0, set }
        }
    }
}

// The common pages of two sets, and the left set without them: 3.
pub fn cut(a: PageSet, b: PageSet) -> CutAnswer
    ensures { Gives (common result) (cut_rule a b) × Gives (left result) (left_rule a b) }
{
    if !form::is_normal(a) {
        return no_cut(3);
    }
    if !form::is_normal(b) {
        return no_cut(3);
    }
    sets::cut(a, b)
}

// A cut's refusal; its values are empty sets.
fn no_cut(code: u32) -> CutAnswer
    ensures { (common result ≡ refused_set code) × (left result ≡ refused_set code) }
{
    let common = sets::empty();
    let left = sets::empty();
    CutAnswer { code, common, left }
}
