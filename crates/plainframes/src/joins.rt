// Joining two ranges, each answer against lists of their pages.
use crate::asked;
use basics::id::SegmentId;
use basics::refusal::Refusal;
use commit::SegmentRange;
use plainset::held::Held;
use plainset::tally::Tally;
use plainset::{held, naive, said};

// A run of a segment's bytes, and its set beside the list of its pages.
#[derive(Clone, Copy)]
pub struct Piece {
    pub sid: SegmentId,
    pub start: u64,
    pub end: u64,
    pub held: Held,
}

impl Piece {
    // The piece by value.
    fn range(&self) -> SegmentRange {
        let sid = self.sid;
        let pages = self.held.set;
        SegmentRange {
            sid,
            start: self.start,
            end: self.end,
            pages,
        }
    }

    // Whether a piece ends before it starts.
    fn is_reversed(&self) -> bool {
        self.end < self.start
    }
}

// Two pieces that touch, the first ending where the second starts: their pages together, or 22 where these lie in over 32 blocks of 64.
fn touched(
    tally: &mut Tally,
    a: Result<Option<SegmentRange>, Refusal>,
    first: &Piece,
    second: &Piece,
) {
    let list = naive::both(first.held.pages, &second.held.pages);
    let code = held::room_code(&list);
    if code != 0 {
        return asked::none(tally, a, code);
    }
    tally.same(asked::number(&a), 0);
    tally.same(asked::is_found(a), true);
    let a = said::told(a);
    asked::range(tally, a, first.sid, first.start, second.end, &list);
}

// An answer to two pieces of one segment.
fn of_one(
    tally: &mut Tally,
    a: Result<Option<SegmentRange>, Refusal>,
    left: &Piece,
    right: &Piece,
) {
    if left.end == right.start {
        return touched(tally, a, left, right);
    }
    if right.end == left.start {
        return touched(tally, a, right, left);
    }
    asked::none(tally, a, 0);
}

// Two pieces joined.
pub fn join(tally: &mut Tally, left: &Piece, right: &Piece) {
    let got = ranges::join(left.range(), right.range());
    if left.is_reversed() || right.is_reversed() {
        return asked::none(tally, got, 2);
    }
    if left.sid != right.sid {
        return asked::none(tally, got, 0);
    }
    of_one(tally, got, left, right);
}

// Two pieces joined, either way round, and each with itself.
pub fn pair(tally: &mut Tally, a: &Piece, b: &Piece) {
    for (left, right) in [(a, b), (b, a), (a, a), (b, b)] {
        join(tally, left, right);
    }
}
