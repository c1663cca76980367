// The parts of a commit in bytes that come before its checkpoints: its key, its hash and its segment, which may be missing.
ghost use Rattle.std.specs.Prelude.{◌≡◌, ◌+◌, ◌≤◌, length};
ghost use Rattle.octets.specs.Bytes.{be, part, put};
ghost use Rattle.rules.specs.Lists.{given};
ghost use Rattle.rules.specs.Forms.{hash_form, segment_form};
ghost use Rattle.commit.specs.Says.{given_says, segment_says};
ghost use Rattle.layout.specs.Codecs.{Codec, optional, in_form};
ghost use Rattle.layout.specs.Values.{segment_bytes};
ghost use Rattle.layout.specs.Records.{log_lsn_bytes, hash_bytes};
ghost use Rattle.commitbytes.specs.Laid.{key_form, presence_of, flag_of, hash_laid, given_segment};

use basics::commit_hash::CommitHash;
use commit::{Presence, SegmentIdx};
use octets::{all_zero, load8, load64, store_hash, store8};
use segmentbytes::{segment_form, segment_write};

// Whether the 25 bytes at a place are a log and an LSN.
pub fn key_form(s: &[u8], at: usize) -> bool
    requires { at + 25 ≤ length s.now }
    ensures { result ≡ in_form log_lsn_bytes key_form (part at 25 s.now) }
{
    if load8(s, at) != 0 {
        return false;
    }
    load64(s, at + 17) < 18446744073709551615
}

// What the flag at a place says.
pub fn flag_read(s: &[u8], at: usize) -> Presence
    requires { at + 1 ≤ length s.now }
    ensures { result ≡ presence_of (be (part at 1 s.now)) }
{
    if load8(s, at) == 0 {
        return Presence::Missing;
    }
    Presence::Given
}

// The flag that says so.
fn flag(p: Presence) -> u8
    ensures { result ≡ flag_of p }
{
    match p {
        Presence::Missing => 0,
        Presence::Given => 1,
    }
}

// Whether the 33 bytes at a place are a hash, or none.
pub fn hash_form(s: &[u8], at: usize) -> bool
    requires { at + 33 ≤ length s.now }
    ensures { result ≡ in_form (optional hash_bytes) (given hash_form) (part at 33 s.now) }
{
    let flag = load8(s, at);
    if flag == 0 {
        return all_zero(s, at + 1, 32);
    }
    flag == 1
}

// A hash that may be missing, over the 33 bytes at a place.
pub fn hash_write(s: &mut [u8], at: usize, has: Presence, hash: CommitHash)
    requires at_in_bounds { at + 33 ≤ length s.old }
    requires hash_value { hash_laid (given_says has hash) ≡ hash }
    ensures { s.new ≡ put at ((optional hash_bytes).spell (given_says has hash)) s.old }
{
    let f = flag(has);
    store8(s, at, f);
    store_hash(s, at + 1, hash);
}

// Whether the 595 bytes at a place are a segment in form, or none.
pub fn given_form(s: &[u8], at: usize) -> bool
    requires { at + 595 ≤ length s.now }
    ensures { result ≡ in_form (optional segment_bytes) (given segment_form) (part at 595 s.now) }
{
    let flag = load8(s, at);
    if flag == 0 {
        return all_zero(s, at + 1, 594);
    }
    if flag != 1 {
        return false;
    }
    segment_form(s, at + 1)
}

// A segment that may be missing, over the 595 bytes at a place.
pub fn given_write(s: &mut [u8], at: usize, has: Presence, x: SegmentIdx)
    requires at_in_bounds { at + 595 ≤ length s.old }
    requires x_value { given_segment (given_says has (segment_says x)) ≡ x }
    ensures { s.new ≡ put at ((optional segment_bytes).spell (given_says has (segment_says x))) s.old }
{
    let f = flag(has);
    store8(s, at, f);
    segment_write(s, at + 1, x);
}
