// Random segments and random ranges.
use crate::swept;
use plainframes::joins;
use plainframes::joins::Piece;
use plainframes::plain::Plain;
use plainset::tally::Tally;
use plainset::{held, random};

// A random size: a few bytes, none, or a great part of 2^64.
fn size(seed: u64) -> u64 {
    match random::below(random::pick(seed, 1), 24) {
        0 => 9223372036854775808,
        1 => 4611686018427387904,
        _ => random::below(random::pick(seed, 2), 9),
    }
}

// A random last page: some way past the page before, or now and then not past it.
fn last(seed: u64, before: u64, spread: u64) -> u64 {
    if random::below(random::pick(seed, 3), 40) == 0 {
        return before;
    }
    before
        .wrapping_add(1)
        .wrapping_add(random::below(random::pick(seed, 4), spread))
}

// A segment with random frames near a base.
fn framed(bare: Plain, seed: u64, base: u64) -> Plain {
    let n = random::below(random::pick(seed, 5), 17);
    let spread = random::spread(seed) / 6;
    let mut p = bare;
    let mut page = base % 4294967296;
    for k in 0..n {
        let seed = random::pick(seed, k);
        page = last(seed, page, spread);
        p = p.with(size(seed), random::clipped(page));
    }
    p
}

// One round of frames.
fn round(tally: &mut Tally, seed: u64) {
    let base = random::base(seed);
    let draws = random::draws(random::pick(seed, 1), base);
    let bare = Plain::bare(held::built(&draws));
    swept::all(tally, &framed(bare, random::pick(seed, 2), base));
}

// All rounds of frames.
pub fn segments() -> Tally {
    let mut tally = Tally::default();
    for k in 0..120 {
        round(&mut tally, random::pick(20250309, k));
    }
    tally
}

// A random piece, of one of two segments.
fn piece(seed: u64, base: u64) -> Piece {
    let draws = random::draws(random::pick(seed, 1), base);
    let held = held::built(&draws);
    let start = random::below(random::pick(seed, 2), 4);
    let end = random::below(random::pick(seed, 3), 6);
    let sid = sid(random::below(random::pick(seed, 4), 5));
    Piece {
        sid,
        start,
        end,
        held,
    }
}

// A segment's identifier: one of two.
fn sid(kind: u64) -> [u8; 16] {
    if kind == 0 { [3u8; 16] } else { [4u8; 16] }
}

// One round of joins.
fn joined(tally: &mut Tally, seed: u64) {
    let base = random::base(seed);
    let a = piece(random::pick(seed, 6), base);
    let b = piece(random::pick(seed, 7), base);
    joins::pair(tally, &a, &b);
}

// All rounds of joins.
pub fn joins() -> Tally {
    let mut tally = Tally::default();
    for k in 0..300 {
        joined(&mut tally, random::pick(20250310, k));
    }
    tally
}
