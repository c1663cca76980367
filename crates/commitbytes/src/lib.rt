// A commit in bytes (docs/TABLES.md), 722 bytes: its log and its LSN, which are its key, its page count, its hash and its segment, which may be missing, and
// at most 8 checkpoint LSNs. `fields` reads single fields, `parts` has the key, the hash and the segment, `lsns` the checkpoints.
#![tactic(auto)]

pub mod fields;
pub mod lsns;
pub mod parts;

ghost use Rattle.std.specs.Prelude.{◌≡◌, ◌+◌, ◌≤◌, length};
ghost use Rattle.octets.specs.Bytes.{part, put};
ghost use Rattle.rules.specs.Arguments.{commit_lsns};
ghost use Rattle.rules.specs.Forms.{commit_form};
ghost use Rattle.commit.specs.Says.{commit_says};
ghost use Rattle.layout.specs.Codecs.{Codec, in_form};
ghost use Rattle.layout.specs.Records.{commit_bytes};
ghost use Rattle.commitbytes.specs.Laid.{commit_laid};

use commit::Commit;
use octets::{load64, store32};

// Whether the 722 bytes at a place are those of a commit in form.
pub fn commit_form(s: &[u8], at: usize) -> bool
    requires { at + 722 ≤ length s.now }
    ensures { result ≡ in_form commit_bytes commit_form (part at 722 s.now) }
{
    if !parts::key_form(s, at) {
        return false;
    }
    if !parts::hash_form(s, at + 29) {
        return false;
    }
    if !parts::given_form(s, at + 62) {
        return false;
    }
    lsns::lsns_form(s, at + 657)
}

// Number 1 of a commit in bytes: whether neither its LSN nor a listed checkpoint is 0.
pub fn commit_lsns_ok(s: &[u8], at: usize) -> bool
    requires { at + 722 ≤ length s.now }
    ensures { result ≡ commit_lsns (commit_bytes.read (part at 722 s.now)) }
{
    if 18446744073709551615 <= load64(s, at + 17) {
        return false;
    }
    lsns::lsns_count(s, at + 657)
}

// The commit that the 722 bytes at a place spell.
pub fn commit_read(s: &[u8], at: usize) -> Commit
    requires { at + 722 ≤ length s.now }
    ensures { result ≡ commit_laid (commit_bytes.read (part at 722 s.now)) }
{
    let log = fields::commit_log(s, at);
    let lsn = fields::commit_lsn(s, at);
    let count = fields::commit_count(s, at);
    let has_hash = fields::commit_has_hash(s, at);
    let hash = fields::commit_hash(s, at);
    let has_segment = fields::commit_has_segment(s, at);
    let segment = fields::commit_segment(s, at);
    let listed = lsns::lsns_number(s, at + 657);
    let checkpoints = lsns::lsns_read(s, at + 657);
    Commit {
        log,
        lsn,
        count,
        has_hash,
        hash,
        has_segment,
        segment,
        listed,
        checkpoints,
    }
}

// A commit, zero beside what is missing and past what counts, over the 722 bytes at a place.
pub fn commit_write(s: &mut [u8], at: usize, x: Commit)
    requires at_in_bounds { at + 722 ≤ length s.old }
    requires x_value { commit_laid (commit_says x) ≡ x }
    ensures { s.new ≡ put at (commit_bytes.spell (commit_says x)) s.old }
{
    let log = x.log;
    let lsn = x.lsn;
    let has_hash = x.has_hash;
    let hash = x.hash;
    let has_segment = x.has_segment;
    let segment = x.segment;
    let checkpoints = x.checkpoints;
    layout::key_write(s, at, log, lsn.0);
    store32(s, at + 25, x.count.0);
    parts::hash_write(s, at + 29, has_hash, hash);
    parts::given_write(s, at + 62, has_segment, segment);
    lsns::lsns_write(s, at + 657, x.listed, checkpoints);
}
