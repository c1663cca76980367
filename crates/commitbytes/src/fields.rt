// Single fields of a commit in bytes, read where they stand.
ghost use Rattle.std.specs.Prelude.{◌≡◌, ◌+◌, ◌≤◌, length};
ghost use Rattle.octets.specs.Bytes.{part};
ghost use Rattle.rules.specs.Push.{is_hash};
ghost use Rattle.rules.specs.Save.{has_sid};
ghost use Rattle.layout.specs.Codecs.{Codec};
ghost use Rattle.layout.specs.Records.{commit_bytes};
ghost use Rattle.basics.specs.Says.{lsn_laid};
ghost use Rattle.commitbytes.specs.Laid.{presence, hash_laid, given_segment};

use crate::parts::flag_read;
use basics::commit_hash;
use basics::commit_hash::CommitHash;
use basics::id::{LogId, SegmentId};
use basics::lsn::Lsn;
use basics::page_count::PageCount;
use commit::{Presence, SegmentIdx};
use octets::{load_hash, load_id, load8, load32, load64, same};
use segmentbytes::segment_read;

// Its log.
pub fn commit_log(s: &[u8], at: usize) -> LogId
    requires { at + 722 ≤ length s.now }
    ensures { result ≡ (commit_bytes.read (part at 722 s.now)).log }
{
    load_id(s, at + 1)
}

// Its LSN, which is stored as its complement.
pub fn commit_lsn(s: &[u8], at: usize) -> Lsn
    requires { at + 722 ≤ length s.now }
    ensures { result.0 ≡ (commit_bytes.read (part at 722 s.now)).lsn }
{
    Lsn(18446744073709551615 - load64(s, at + 17))
}

// Its page count.
pub fn commit_count(s: &[u8], at: usize) -> PageCount
    requires { at + 722 ≤ length s.now }
    ensures { result.0 ≡ (commit_bytes.read (part at 722 s.now)).count }
{
    PageCount(load32(s, at + 25))
}

// Whether it has a hash.
pub fn commit_has_hash(s: &[u8], at: usize) -> Presence
    requires { at + 722 ≤ length s.now }
    ensures { result ≡ presence (commit_bytes.read (part at 722 s.now)).hash }
{
    flag_read(s, at + 29)
}

// Its hash, and ZERO where it is missing.
pub fn commit_hash(s: &[u8], at: usize) -> CommitHash
    requires { at + 722 ≤ length s.now }
    ensures { result ≡ hash_laid (commit_bytes.read (part at 722 s.now)).hash }
{
    if load8(s, at + 29) == 0 {
        return commit_hash::zero();
    }
    load_hash(s, at + 30)
}

// Whether it has this hash.
pub fn commit_hash_is(s: &[u8], at: usize, hash: CommitHash) -> bool
    requires { at + 722 ≤ length s.now }
    ensures { result ≡ is_hash (commit_bytes.read (part at 722 s.now)).hash hash }
{
    if load8(s, at + 29) == 0 {
        return false;
    }
    same(s, at + 30, &hash, 0, 32)
}

// Whether it has a segment.
pub fn commit_has_segment(s: &[u8], at: usize) -> Presence
    requires { at + 722 ≤ length s.now }
    ensures { result ≡ presence (commit_bytes.read (part at 722 s.now)).segment }
{
    flag_read(s, at + 62)
}

// Its segment, and zeros where it is missing.
pub fn commit_segment(s: &[u8], at: usize) -> SegmentIdx
    requires { at + 722 ≤ length s.now }
    ensures { result ≡ given_segment (commit_bytes.read (part at 722 s.now)).segment }
{
    if load8(s, at + 62) == 0 {
        return SegmentIdx::zero();
    }
    segment_read(s, at + 63)
}

// Whether it has a segment of this identifier.
pub fn commit_sid_is(s: &[u8], at: usize, sid: SegmentId) -> bool
    requires { at + 722 ≤ length s.now }
    ensures { result ≡ has_sid sid (commit_bytes.read (part at 722 s.now)).segment }
{
    if load8(s, at + 62) == 0 {
        return false;
    }
    same(&sid, 0, s, at + 63, 16)
}
