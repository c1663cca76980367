// Random sets: each round draws two sets near each other, and tries each call on them.
use plainset::held::Held;
use plainset::tally::Tally;
use plainset::{held, random};

// The numbers of the insertions that build a set; 0 is no page, and refused.
fn building(tally: &mut Tally, draws: &[u32]) {
    let mut h = held::empty();
    for p in draws {
        held::insert_number(tally, &h, *p);
        h = held::grown(h, *p);
    }
}

// One random range, and the calls that take one.
fn range(tally: &mut Tally, h: &Held, seed: u64, base: u64) {
    let a = random::near(base, random::spread(seed), random::pick(seed, 1));
    let far = random::near(base, random::spread(seed), random::pick(seed, 2));
    let close = random::near(u64::from(a), 9, random::pick(seed, 3));
    held::range(tally, h, a, far);
    held::range(tally, h, a, close);
    held::remove(tally, h, a, far);
}

// Random ranges.
fn ranges(tally: &mut Tally, h: &Held, seed: u64, base: u64) {
    for k in 0..10 {
        range(tally, h, random::pick(seed, k), base);
    }
}

// A random page inserted, and a random count of pages kept.
fn page(tally: &mut Tally, h: &Held, seed: u64, base: u64) {
    let p = random::near(base, random::spread(seed), random::pick(seed, 1));
    let n = random::near(base, random::spread(seed), random::pick(seed, 2));
    held::insert(tally, h, p);
    held::truncate(tally, h, n);
}

// Random pages and counts of pages.
fn pages(tally: &mut Tally, h: &Held, seed: u64, base: u64) {
    for k in 0..4 {
        page(tally, h, random::pick(seed, k), base);
    }
}

// One set by itself.
fn alone(tally: &mut Tally, h: &Held, seed: u64, base: u64) {
    held::own(tally, h);
    held::truncate(tally, h, random::clipped(random::pick(seed, 1)));
    ranges(tally, h, random::pick(seed, 2), base);
    pages(tally, h, random::pick(seed, 3), base);
}

// One round.
fn round(tally: &mut Tally, seed: u64) {
    let base = random::base(seed);
    let first = random::draws(random::pick(seed, 1), base);
    let second = random::draws(random::pick(seed, 2), base);
    let a = held::built(&first);
    let b = held::built(&second);
    building(tally, &first);
    alone(tally, &a, random::pick(seed, 3), base);
    alone(tally, &b, random::pick(seed, 4), base);
    held::pair(tally, &a, &b);
}

// All rounds.
pub fn all() -> Tally {
    let mut tally = Tally::default();
    for k in 0..240 {
        round(&mut tally, random::pick(20250307, k));
    }
    tally
}
