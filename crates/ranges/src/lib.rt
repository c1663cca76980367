// Runs of a segment's bytes: their size, and joining two that touch.
#![tactic(auto)]

ghost use Rattle.std.specs.Prelude.{◌≡◌, ◌-◌, ◌≤◌, true};
ghost use Rattle.std.proofs.Math.Option.{some};
ghost use Rattle.pageset.specs.Sets.{normal};
ghost use Rattle.rules.specs.Frames.{joined_part};
ghost use Rattle.commit.specs.Says.{Tells};
ghost use Rattle.ranges.specs.Rules.{join_rule, both_of};

use basics::id;
use basics::refusal::Refusal;
use commit::SegmentRange;
use pageset::{form, sets};

// The number of bytes of a range that does not end before it starts.
pub fn size(r: SegmentRange) -> u64
    requires { r.start ≤ r.end }
    ensures { result ≡ r.end - r.start }
{
    r.end - r.start
}

// Two ranges of a segment as one: 22 where their pages need over 32 windows.
fn joined(left: SegmentRange, right: SegmentRange) -> Result<Option<SegmentRange>, Refusal>
    requires pages_value { normal left.pages ≡ true }
    requires pages_value_2 { normal right.pages ≡ true }
    ensures { Tells result (joined_part (some (both_of left right))) }
{
    let a = left.pages;
    let b = right.pages;
    let all = sets::union(a, b);
    if all.code != 0 {
        return Err(Refusal::TooWide);
    }
    let sid = left.sid;
    let pages = all.set;
    Ok(Some(SegmentRange {
        sid,
        start: left.start,
        end: right.end,
        pages,
    }))
}

// Two ranges joined: 2 for one that ends before it starts, 3 for a set that is not in form, none where they are of other segments or do not touch, then 22.
pub fn join(left: SegmentRange, right: SegmentRange) -> Result<Option<SegmentRange>, Refusal>
    ensures { Tells result (join_rule left right) }
{
    if left.end < left.start {
        return Err(Refusal::Reversed);
    }
    if right.end < right.start {
        return Err(Refusal::Reversed);
    }
    let a = left.pages;
    if !form::is_normal(a) {
        return Err(Refusal::Form);
    }
    let b = right.pages;
    if !form::is_normal(b) {
        return Err(Refusal::Form);
    }
    let x = left.sid;
    let y = right.sid;
    if !id::same(x, y) {
        return Ok(None);
    }
    if left.end == right.start {
        return joined(left, right);
    }
    if right.end == left.start {
        return joined(right, left);
    }
    Ok(None)
}
