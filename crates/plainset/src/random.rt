// Numbers that look random, the same in each run, and lists of pages drawn by them.
use std::array;

// The number after a number: a linear congruential generator of 32 bits.
fn next(state: u64) -> u64 {
    (state % 4294967296 * 1664525 + 1013904223) % 4294967296
}

// The k-th number of a seed.
pub fn pick(seed: u64, k: u64) -> u64 {
    next(next(seed.wrapping_add(next(k))))
}

// A number below n, or 0 where n is 0.
pub fn below(state: u64, n: u64) -> u64 {
    if n == 0 {
        return 0;
    }
    state % 4294967296 / 128 % n
}

// The number as a page or a count; the last page where it is too large.
pub fn clipped(n: u64) -> u32 {
    u32::try_from(n).unwrap_or(u32::MAX)
}

// Where the pages of a round lie: at the first page, at the last, or anywhere.
pub fn base(seed: u64) -> u64 {
    match below(pick(seed, 101), 4) {
        0 => 0,
        1 => 4294965200u64.wrapping_add(below(pick(seed, 102), 2048)),
        _ => pick(seed, 103),
    }
}

// How far apart pages are drawn: from a part of a window to more windows than a set has.
const SPREADS: [u64; 8] = [12, 64, 100, 200, 700, 2300, 2300, 7000];

// The spread of a seed.
pub fn spread(seed: u64) -> u64 {
    let k = below(pick(seed, 105), 8) as usize;
    SPREADS.get(k).copied().unwrap_or(64)
}

// A page near a base.
pub fn near(base: u64, spread: u64, state: u64) -> u32 {
    clipped((base % 4294967296).wrapping_add(below(state, spread)))
}

// The i-th page of a draw: the first n are scattered, and past 40 there may be a run of pages; else none.
fn drawn(seed: u64, base: u64, i: u64) -> u32 {
    if i < below(pick(seed, 106), 41) {
        return near(base, spread(seed), pick(seed, i));
    }
    if i < 40 || below(pick(seed, 107), 4) != 0 {
        return 0;
    }
    clipped((base % 4294967296).wrapping_add(i))
}

// A draw of pages: some may come twice.
pub fn draws(seed: u64, base: u64) -> [u32; 128] {
    array::from_fn(|i| drawn(seed, base, i as u64))
}
