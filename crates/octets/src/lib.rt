// Bytes at places of a lent slice: big-endian numbers, runs of bytes, the order of byte strings, and moves.
#![tactic(auto)]

ghost use Rattle.std.specs.Prelude.{◌≡◌, reverse, ◌+◌, ◌*◌, ◌%◌, ◌≤◌, ◌<◌, length};
ghost use Rattle.octets.specs.Bytes.{be, bytes_of, part, put, all_zero};
ghost use Rattle.octets.specs.Order.{order, lex, is_less, is_equal};

use std::cmp::Ordering;

// The byte at a place.
pub fn load8(s: &[u8], at: usize) -> u8
    requires { at + 1 ≤ length s.now }
    ensures { result ≡ be (part at 1 s.now) }
{
    s[at]
}

// The two bytes at a place, as a count.
pub fn load16(s: &[u8], at: usize) -> usize
    requires { at + 2 ≤ length s.now }
    ensures { (result ≡ be (part at 2 s.now)) × (result < 65536) }
{
    usize::from(u16::from_be_bytes(load_array(s, at)))
}

// The four bytes at a place. The compiler makes one load and one byte swap of it, also where a test of the number follows.
pub fn load32(s: &[u8], at: usize) -> u32
    requires { at + 4 ≤ length s.now }
    ensures { result ≡ be (part at 4 s.now) }
{
    u32::from_be_bytes(load_array(s, at))
}

// The eight bytes at a place.
pub fn load64(s: &[u8], at: usize) -> u64
    requires { at + 8 ≤ length s.now }
    ensures { result ≡ be (part at 8 s.now) }
{
    u64::from_be_bytes(load_array(s, at))
}

// The bytes at a place, as many as fill `out`.
pub fn load_all(s: &[u8], at: usize, out: &mut [u8])
    requires { at + length out.old ≤ length s.now }
    ensures { out.new ≡ part at (length out.old) s.now }
{
    out.copy_from_slice(&s[at..at + out.len()]);
}

// The N bytes at a place.
fn load_array<const N: usize>(s: &[u8], at: usize) -> [u8; N]
    requires { at + N ≤ length s.now }
    ensures { result ≡ part at N s.now }
{
    let mut r = [0u8; N];
    load_all(s, at, &mut r);
    r
}

// The 16 bytes at a place.
// Kept: this name and the next, as instances of `load_array`: callers' proofs cite the steps by them.
pub fn load_id(s: &[u8], at: usize) -> [u8; 16]
    requires { at + 16 ≤ length s.now }
    ensures { result ≡ part at 16 s.now }
{
    load_array(s, at)
}

// The 32 bytes at a place.
pub fn load_hash(s: &[u8], at: usize) -> [u8; 32]
    requires { at + 32 ≤ length s.now }
    ensures { result ≡ part at 32 s.now }
{
    load_array(s, at)
}

// v over the byte at a place.
pub fn store8(s: &mut [u8], at: usize, v: u8)
    requires { at + 1 ≤ length s.old }
    ensures { s.new ≡ put at (bytes_of 1 v) s.old }
{
    s[at] = v;
}

// The two low bytes of a count over those at a place.
pub fn store16(s: &mut [u8], at: usize, v: usize)
    requires { at + 2 ≤ length s.old }
    ensures { s.new ≡ put at (bytes_of 2 v) s.old }
{
    let low = (v % 65536) as u16;
    store_all(s, at, &low.to_be_bytes());
}

// v over the four bytes at a place.
pub fn store32(s: &mut [u8], at: usize, v: u32)
    requires { at + 4 ≤ length s.old }
    ensures { s.new ≡ put at (bytes_of 4 v) s.old }
{
    store_all(s, at, &v.to_be_bytes());
}

// v over the eight bytes at a place.
pub fn store64(s: &mut [u8], at: usize, v: u64)
    requires { at + 8 ≤ length s.old }
    ensures { s.new ≡ put at (bytes_of 8 v) s.old }
{
    store_all(s, at, &v.to_be_bytes());
}

// All of b over the bytes at a place.
pub fn store_all(s: &mut [u8], at: usize, b: &[u8])
    requires { at + length b.now ≤ length s.old }
    ensures { s.new ≡ put at b.now s.old }
{
    s[at..at + b.len()].copy_from_slice(b);
}

// An identifier over the 16 bytes at a place.
// Kept: this name and the next, as instances of `store_all`: callers' proofs cite the steps by them.
pub fn store_id(s: &mut [u8], at: usize, id: [u8; 16])
    requires { at + 16 ≤ length s.old }
    ensures { s.new ≡ put at id s.old }
{
    store_all(s, at, &id)
}

// A hash over the 32 bytes at a place.
pub fn store_hash(s: &mut [u8], at: usize, hash: [u8; 32])
    requires { at + 32 ≤ length s.old }
    ensures { s.new ≡ put at hash s.old }
{
    store_all(s, at, &hash)
}

// How two numbers stand.
pub fn compare_numbers(x: u64, y: u64) -> Ordering
    ensures { result ≡ order x y }
{
    if x < y {
        return Ordering::Less;
    }
    if y < x {
        return Ordering::Greater;
    }
    Ordering::Equal
}

// How the n bytes at one place and those at another stand, byte by byte.
fn compare_bytes(a: &[u8], at: usize, b: &[u8], bt: usize, n: usize) -> Ordering
    requires { (at + n ≤ length a.now) × (bt + n ≤ length b.now) }
    ensures { result ≡ lex (part at n a.now) (part bt n b.now) }
{
    for i in 0..n {
        let x = load8(a, at + i);
        let y = load8(b, bt + i);
        if x < y {
            return Ordering::Less;
        }
        if y < x {
            return Ordering::Greater;
        }
    }
    Ordering::Equal
}

// How the n bytes at one place and those at another stand: word by word, and what is left byte by byte.
pub fn compare(a: &[u8], at: usize, b: &[u8], bt: usize, n: usize) -> Ordering
    requires { (at + n ≤ length a.now) × (bt + n ≤ length b.now) }
    ensures { result ≡ lex (part at n a.now) (part bt n b.now) }
{
    for word in 0..n / 8 {
        let x = load64(a, at + 8 * word);
        let y = load64(b, bt + 8 * word);
        if x != y {
            return compare_numbers(x, y);
        }
    }
    let done = n - n % 8;
    compare_bytes(a, at + done, b, bt + done, n % 8)
}

// Whether the n bytes at one place stand strictly below those at another.
pub fn before(a: &[u8], at: usize, b: &[u8], bt: usize, n: usize) -> bool
    requires { (at + n ≤ length a.now) × (bt + n ≤ length b.now) }
    ensures { result ≡ is_less (lex (part at n a.now) (part bt n b.now)) }
{
    matches!(compare(a, at, b, bt, n), Ordering::Less)
}

// Whether the n bytes at one place are those at another.
pub fn same(a: &[u8], at: usize, b: &[u8], bt: usize, n: usize) -> bool
    requires { (at + n ≤ length a.now) × (bt + n ≤ length b.now) }
    ensures { result ≡ is_equal (lex (part at n a.now) (part bt n b.now)) }
{
    matches!(compare(a, at, b, bt, n), Ordering::Equal)
}

// How two identifiers stand.
pub fn compare_id(a: [u8; 16], b: [u8; 16]) -> Ordering
    ensures { result ≡ lex a b }
{
    compare(&a, 0, &b, 0, 16)
}

// Whether two identifiers are the same.
pub fn same_id(a: [u8; 16], b: [u8; 16]) -> bool
    ensures { result ≡ is_equal (lex a b) }
{
    same(&a, 0, &b, 0, 16)
}

// The n bytes at a place, which end before the place `by` above it, over those there: one copy.
fn copy_up(s: &mut [u8], at: usize, by: usize, n: usize)
    requires { (n ≤ by) × (at + by + n ≤ length s.old) }
    ensures { s.new ≡ put (at + by) (part at n s.old) s.old }
{
    let (low, high) = s.split_at_mut(at + by);
    high[..n].copy_from_slice(&low[at..at + n]);
}

// From so many bytes up a move goes in blocks.
const FAR: usize = 128;

// The n bytes at a place go up to the place `by` above it. A way far enough is gone in blocks of `by` bytes, the last first: none meets the place that it leaves, so that each is one copy.
// Inlined, so that where a caller's way is known, as that of a record is, the processor copies many bytes at a time also on a short one.
#[inline(always)]
pub fn move_up(s: &mut [u8], at: usize, by: usize, n: usize)
    requires { at + by + n ≤ length s.old }
    ensures { s.new ≡ put (at + by) (part at n s.old) s.old }
{
    if by < FAR {
        s.copy_within(at..at + n, at + by);
        return;
    }
    let mut left = n;
    while by < left {
        left -= by;
        copy_up(s, at + left, by, by);
    }
    copy_up(s, at, by, left);
}

// The n bytes at the place `by` above a place come down to it.
pub fn move_down(s: &mut [u8], at: usize, by: usize, n: usize)
    requires { at + by + n ≤ length s.old }
    ensures { s.new ≡ put at (part (at + by) n s.old) s.old }
{
    s.copy_within(at + by..at + by + n, at);
}

// Whether the n bytes at a place are all 0: their bits together are none, which the processor finds many bytes at a time; `all` would go byte by byte.
pub fn all_zero(s: &[u8], at: usize, n: usize) -> bool
    requires { at + n ≤ length s.now }
    ensures { result ≡ all_zero (part at n s.now) }
{
    s[at..at + n].iter().fold(0, |bits, byte| bits | byte) == 0
}
