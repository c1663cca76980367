// Sets of 32 windows: unions and insertions that just fit, and those that need one window more.
use basics::pageidx::PageIdx;
use plainset::held;
use plainset::held::Held;
use plainset::tally::Tally;

// A set with one page in each of n windows: from a on, a page each step.
fn comb(a: u32, step: u32, n: u32) -> Held {
    (0..n).fold(held::empty(), |h, i| {
        held::grown(h, a.wrapping_add(step.wrapping_mul(i)))
    })
}

// A union's number, and what it gives, either way round.
fn joined(tally: &mut Tally, a: &Held, b: &Held, code: u32) {
    let got = pagecalls::union(a.set, b.set);
    tally.same(got.code, code);
    held::union(tally, a, b);
    held::union(tally, b, a);
}

// An insertion's number, and what it gives.
fn added(tally: &mut Tally, h: &Held, p: u32, code: u32) {
    let got = pagecalls::insert(h.set, PageIdx(p));
    tally.same(got.code, code);
    held::insert(tally, h, p);
}

// Unions of sets whose windows stand apart, side by side, or between each other.
fn unions(tally: &mut Tally) {
    let low = comb(64, 64, 16);
    joined(tally, &low, &comb(1088, 64, 16), 0);
    joined(tally, &low, &comb(1088, 64, 17), 22);
    let odd = comb(128, 128, 16);
    joined(tally, &comb(64, 128, 16), &odd, 0);
    joined(tally, &comb(64, 128, 17), &odd, 22);
    let wide = comb(70, 64, 32);
    joined(tally, &wide, &comb(71, 64, 32), 0);
    joined(tally, &wide, &wide, 0);
}

// Unions at the first page and at the last.
fn unions_at_ends(tally: &mut Tally) {
    let low = comb(1, 64, 32);
    joined(tally, &low, &comb(2, 640, 4), 0);
    joined(tally, &low, &comb(2048, 64, 1), 22);
    let high = comb(4294965248, 64, 32);
    joined(tally, &high, &comb(4294967295, 1, 1), 0);
    joined(tally, &high, &comb(4294965247, 1, 1), 22);
    joined(tally, &comb(4294965248, 64, 31), &comb(1, 1, 1), 0);
    joined(tally, &high, &held::empty(), 0);
}

// Insertions into a full set: into one of the windows, and of one window more, below, between or above.
fn insertions(tally: &mut Tally, h: &Held, inside: u32, outside: u32) {
    added(tally, h, inside, 0);
    added(tally, h, outside, 22);
}

// Insertions into full sets.
fn all_insertions(tally: &mut Tally) {
    insertions(tally, &comb(1, 64, 32), 2047, 2048);
    insertions(tally, &comb(100, 64, 32), 64, 63);
    insertions(tally, &comb(64, 128, 32), 65, 128);
    insertions(tally, &comb(4294965248, 64, 32), 4294967295, 1);
    insertions(tally, &comb(64, 134217728, 32), 4160749633, 4294967295);
}

// All of them.
pub fn all() -> Tally {
    let mut tally = Tally::default();
    unions(&mut tally);
    unions_at_ends(&mut tally);
    all_insertions(&mut tally);
    tally
}
