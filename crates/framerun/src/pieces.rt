// Joins: left then right, right then left, a gap, an overlap, other segments, empty ranges at one place, reversed ranges, 22.
use plainframes::joins;
use plainframes::joins::Piece;
use plainset::held;
use plainset::held::Held;
use plainset::tally::Tally;

// A piece of a segment; the identifier differs from the others in one byte, or in none.
fn piece(start: u64, end: u64, held: Held, byte: Option<usize>) -> Piece {
    let mut sid = [7u8; 16];
    if let Some(place) = byte.and_then(|at| sid.get_mut(at)) {
        *place = 8;
    }
    Piece {
        sid,
        start,
        end,
        held,
    }
}

// The set of a letter: a few pages, some of them with others, none.
fn set(letter: u8) -> Held {
    match letter {
        b'0' => held::built(&[2u32, 3, 5, 9]),
        b'1' => held::built(&[3u32, 4, 64, 4294967295]),
        _ => held::empty(),
    }
}

// The number of a letter.
fn value(letter: u8) -> u64 {
    match letter {
        b'0'..=b'9' => u64::from(letter - b'0'),
        _ => u64::MAX,
    }
}

// Two pieces by each word: the start and the end of the left, of the right, the sets of both. The right's identifier differs in one byte, or in none.
fn words(tally: &mut Tally, words: &[&[u8; 6]], byte: Option<usize>) {
    for [from, to, start, end, first, second] in words {
        let left = piece(value(*from), value(*to), set(*first), None);
        let right = piece(value(*start), value(*end), set(*second), byte);
        joins::pair(tally, &left, &right);
    }
}

// A page in each of n windows, from one on.
fn comb(a: u32, n: u32) -> Held {
    (0..n).fold(held::empty(), |h, i| {
        held::grown(h, a.wrapping_add(i.wrapping_mul(64)))
    })
}

// One page in each of n windows up to byte 4, and in each of m windows from a byte on, of a segment that differs in one byte or in none.
fn combs(tally: &mut Tally, n: u32, start: u64, b: u32, m: u32, byte: Option<usize>) {
    let left = piece(0, 4, comb(1, n), None);
    let right = piece(start, 9, comb(b, m), byte);
    joins::pair(tally, &left, &right);
}

// Sets that have 32 windows together, and 33: 22, but where the ranges do not touch or are of two segments.
fn wide(tally: &mut Tally) {
    combs(tally, 16, 4, 1024, 16, None);
    combs(tally, 16, 4, 1024, 17, None);
    combs(tally, 32, 5, 2048, 1, None);
    combs(tally, 32, 4, 2048, 1, Some(3));
    combs(tally, 32, 4, 2, 32, None);
}

// Two pieces that touch, a gap, an overlap, the same bytes twice; touches at the ends of the numbers; empty ranges at one place, at another's start and
// end, and inside it.
const TOUCHING: [&[u8; 6]; 11] = [
    b"044901", b"045901", b"043901", b"040401", b"044zz1", b"zz5z01", b"0zz001", b"555501",
    b"555921", b"599921", b"775901",
];

// Reversed ranges: 2.
const REVERSED: [&[u8; 6]; 3] = [b"434901", b"044301", b"434301"];

// All of these, and the same where the segments differ in the first byte, one in the middle, the last.
pub fn all() -> Tally {
    let mut tally = Tally::default();
    words(&mut tally, &TOUCHING, None);
    words(&mut tally, &REVERSED, None);
    words(&mut tally, &TOUCHING, Some(0));
    words(&mut tally, &REVERSED, Some(7));
    words(&mut tally, &[b"044901", b"494401"], Some(15));
    wide(&mut tally);
    tally
}
