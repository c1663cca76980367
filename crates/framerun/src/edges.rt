// Frames at the edges of their domain: sums about 2^64-1, the last page, empty sets, sizes of 0, spans without a page, sixteen frames.
// The cases are words, a letter for each number.
use crate::swept;
use plainframes::plain::Plain;
use plainset::held;
use plainset::held::Held;
use plainset::tally::Tally;

// The set of a letter: a few pages, none, the first page with the last ones, page 5 alone.
fn set(letter: u8) -> Held {
    match letter {
        b'f' => held::built(&[2u32, 3, 5, 9, 64, 200]),
        b'h' => held::built(&[1u32, 4294967294, 4294967295]),
        b's' => held::built(&[5u32]),
        _ => held::empty(),
    }
}

// The last page of a letter.
fn page(letter: u8) -> u32 {
    match letter {
        b'0'..=b'9' => u32::from(letter - b'0'),
        b'a' => 64,
        b'b' => 200,
        b'c' => 201,
        b'y' => u32::MAX - 1,
        _ => u32::MAX,
    }
}

// The size of a letter.
fn size(letter: u8) -> u64 {
    match letter {
        b'0'..=b'9' => u64::from(letter - b'0'),
        b'l' => 59,
        b'g' => 9223372036854775807,
        b'h' => 9223372036854775808,
        b'y' => u64::MAX - 1,
        _ => u64::MAX,
    }
}

// A segment of a set, with frames of four bytes up to the pages of some letters; none for a dash.
fn ending(set: Held, letters: &[u8]) -> Plain {
    letters
        .iter()
        .filter(|letter| **letter != b'-')
        .fold(Plain::bare(set), |p, letter| p.with(4, page(*letter)))
}

// Words of a set and three last pages.
fn ended(tally: &mut Tally, words: &[&[u8; 4]]) {
    for [first, second, third, fourth] in words {
        let lasts = [*second, *third, *fourth];
        swept::all(tally, &ending(set(*first), &lasts));
    }
}

// Words of three sizes: a few pages, and frames of these sizes up to pages 3, 9 and 200.
fn sized(tally: &mut Tally, words: &[&[u8; 3]]) {
    for [first, second, third] in words {
        let p = Plain::bare(set(b'f'))
            .with(size(*first), 3)
            .with(size(*second), 9)
            .with(size(*third), 200);
        swept::all(tally, &p);
    }
}

// Sixteen frames, and a count of seventeen and of as many as can be said: 3.
fn sixteen(tally: &mut Tally) {
    let full = (2..18).fold(Plain::bare(set(b'f')), |p, k| p.with(4, k));
    swept::all(tally, &full);
    swept::all(tally, &full.counted(17));
    swept::all(tally, &full.counted(usize::MAX));
}

// Sizes: sums of 2^64-1; greater sums, which are 3; frames of no byte, and ends at and about the lent lengths.
fn sizes(tally: &mut Tally) {
    sized(tally, &[b"hg0", b"z00", b"0z0", b"y01"]);
    sized(tally, &[b"hh0", b"z01", b"zz2", b"y11"]);
    sized(tally, &[b"000", b"05l", b"5l0", b"42l"]);
}

// Last pages: up to the last page, with a frame behind it, which is 3; of an empty set, from page 1 on; spans without a page, and pages past the
// last frame; the first frame that ends at the set's first page, or below it, which is 3; last pages that stay or fall: 3.
fn lasts(tally: &mut Tally) {
    ended(tally, &[b"hz--", b"hyz-", b"hzz-", b"hz1-"]);
    ended(tally, &[b"-1--", b"-1a-", b"-0--", b"-z--"]);
    ended(tally, &[b"f58-", b"f58a", b"fbc-", b"f2--", b"f---"]);
    ended(tally, &[b"f1--", b"s4--", b"s5--", b"f0--"]);
    ended(tally, &[b"f99-", b"f98-", b"f3b9"]);
}

// All of them.
pub fn all() -> Tally {
    let mut tally = Tally::default();
    sizes(&mut tally);
    lasts(&mut tally);
    sixteen(&mut tally);
    tally
}
