// The checkpoint LSNs of a commit in bytes: their number, and 8 places of 8 bytes; zero past those that are listed.
ghost use Rattle.std.specs.Prelude.{◌≡◌, ◌+◌, ◌*◌, ◌≤◌, map, length, take};
ghost use Rattle.octets.specs.Bytes.{bytes_of, part, put};
ghost use Rattle.octets.specs.Flat.{flat};
ghost use Rattle.basics.specs.Numbers.{counts};
ghost use Rattle.rules.specs.Lists.{all};
ghost use Rattle.layout.specs.Codecs.{Codec, number, listed, in_form};
ghost use Rattle.commitbytes.specs.Laid.{lsns_at, lsn_says, lsns_laid, lsns_form, IsLaid};

use basics::lsn::Lsn;
use commit::no_checkpoints;
use octets::{all_zero, load8, load64, store8, store64};
use setbytes::count_read;

// Whether none of the n LSNs from a place on is 0.
fn none_zero(s: &[u8], at: usize, n: usize) -> bool
    requires { (n ≤ 8) × (at + n * 8 ≤ length s.now) }
    ensures { result ≡ all counts (lsns_at n at s.now) }
{
    for i in 0..n {
        let lsn = load64(s, at + i * 8);
        if lsn == 0 {
            return false;
        }
    }
    true
}

// Whether the 65 bytes at a place are those of at most 8 LSNs, none of them 0.
pub fn lsns_form(s: &[u8], at: usize) -> bool
    requires { at + 65 ≤ length s.now }
    ensures { result ≡ in_form (listed (number 8) 8) lsns_form (part at 65 s.now) }
{
    let n = usize::from(load8(s, at));
    if 8 < n {
        return false;
    }
    if !none_zero(s, at + 1, n) {
        return false;
    }
    all_zero(s, at + 1 + n * 8, (8 - n) * 8)
}

// Whether none of the LSNs that the 65 bytes at a place spell is 0.
pub fn lsns_count(s: &[u8], at: usize) -> bool
    requires { at + 65 ≤ length s.now }
    ensures { result ≡ all counts ((listed (number 8) 8).read (part at 65 s.now)) }
{
    let n = count_read(s, at, 8);
    none_zero(s, at + 1, n)
}

// The number of LSNs that the 65 bytes at a place spell.
pub fn lsns_number(s: &[u8], at: usize) -> usize
    requires { at + 65 ≤ length s.now }
    ensures { result ≡ length ((listed (number 8) 8).read (part at 65 s.now)) }
{
    count_read(s, at, 8)
}

// The LSNs that the 65 bytes at a place spell, in an array; zero past them.
// Kept: windows, frames and ranges have the same loop in their crates; a trait would want an impl where neither it nor the type stands, and a closure a law longer than the loop.
pub fn lsns_read(s: &[u8], at: usize) -> [Lsn; 8]
    requires { at + 65 ≤ length s.now }
    ensures { result ≡ lsns_laid ((listed (number 8) 8).read (part at 65 s.now)) }
{
    let n = count_read(s, at, 8);
    let mut ns = no_checkpoints();
    for i in 0..n {
        ns[i] = Lsn(load64(s, at + 1 + i * 8));
    }
    ns
}

// All LSNs of an array over the 64 bytes at a place.
// Kept: windows, frames and ranges have the same loop in their crates; a trait would want an impl where neither it nor the type stands, and a closure a law longer than the loop.
fn all_write(s: &mut [u8], at: usize, ns: [Lsn; 8])
    requires { at + 64 ≤ length s.old }
    ensures { s.new ≡ put at (flat (λ n. bytes_of 8 (lsn_says n)) ns) s.old }
{
    for (i, lsn) in ns.iter().enumerate() {
        store64(s, at + 8 * i, lsn.0);
    }
}

// The first n LSNs of an array that is zero past them, over the 65 bytes at a place.
pub fn lsns_write(s: &mut [u8], at: usize, n: usize, ns: [Lsn; 8])
    requires at_in_bounds { at + 65 ≤ length s.old }
    requires laid { IsLaid n ns }
    ensures { s.new ≡ put at ((listed (number 8) 8).spell (map lsn_says (take n ns))) s.old }
{
    store8(s, at, n as u8);
    all_write(s, at + 1, ns);
}
