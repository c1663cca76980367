// The table of commits in lent bytes: its check, where a commit stands, and single fields of a stored commit, read where they stand.
#![tactic(auto)]

ghost use Rattle.std.specs.Prelude.{◌≡◌, ◌+◌, ◌*◌, ◌<◌, ◌≤◌, true, length};
ghost use Rattle.table.specs.Table.{count_of};
ghost use Rattle.layout.specs.Tables.{commits_in, commits_ok};
ghost use Rattle.rules.specs.Lists.{is_some};
ghost use Rattle.rules.specs.Tables.{same_id, get_commit, latest};
ghost use Rattle.rules.specs.Push.{is_hash};
ghost use Rattle.rules.specs.Save.{has_sid};
ghost use Rattle.commits.specs.Places.{commit_at, PlaceOf, RunOfRange};
ghost use Rattle.rows.proofs.Rows.{formed_tests};
ghost use Rattle.rows.proofs.Tables.{commits};
ghost use Rattle.std.proofs.Common.{lit<, lit≤};
ghost use Rattle.layout.specs.Codecs.{in_form};
ghost use Rattle.rules.specs.Forms.{commit_form};
ghost use Rattle.layout.specs.Records.{commit_bytes};

use basics::id::{LogId, SegmentId};
use commit::Presence;
use commitbytes::{commit_form, fields};
use layout::{COMMIT, COMMIT_KEY, log_key};
use rows::Kind;

// Commits as a kind of record.
struct Commits;

impl Kind for Commits {
    ghost form = { λ b. in_form commit_bytes commit_form b };

    ghost table = { λ t. commits_ok t };

    const SIZE: usize = COMMIT;

    ghost SIZE = { 722 };

    const KEY: usize = COMMIT_KEY;

    ghost KEY = { 25 };

    fn in_form(s: &[u8], at: usize) -> bool {
        commit_form(s, at)
    }

    ghost sized = { lit< tt };

    ghost short = { lit≤ tt };

    ghost tests = { λ t. formed_tests commits t };
}

// Whether bytes are a table of commits: their count, the order of their keys and the form of each (20).
pub fn commits_formed(t: &[u8]) -> bool
    ensures { result ≡ commits_ok t.now }
{
    rows::formed::<Commits>(t)
}

// Where record i begins.
pub fn row(t: &[u8], i: usize) -> usize
    requires { (commits_ok t.now ≡ true) × (i < count_of t.now) }
    ensures { (result ≡ 2 + i * 722) × (result + 722 ≤ length t.now) }
{
    2 + i * COMMIT
}

// ---- fields of record i

// Its LSN.
pub fn lsn_at(t: &[u8], i: usize) -> u64
    requires { (commits_ok t.now ≡ true) × (i < count_of t.now) }
    ensures { result ≡ (commit_at t.now i).lsn }
{
    let lsn = fields::commit_lsn(t, row(t, i));
    lsn.0
}

// Its page count.
pub fn count_at(t: &[u8], i: usize) -> u32
    requires { (commits_ok t.now ≡ true) × (i < count_of t.now) }
    ensures { result ≡ (commit_at t.now i).count }
{
    let count = fields::commit_count(t, row(t, i));
    count.0
}

// Whether it is a commit of that log.
pub fn log_is(t: &[u8], i: usize, log: LogId) -> bool
    requires { (commits_ok t.now ≡ true) × (i < count_of t.now) }
    ensures { result ≡ same_id log (commit_at t.now i).log }
{
    octets::same(&log, 0, t, row(t, i) + 1, 16)
}

// Whether its hash is there and is that one.
pub fn hash_is(t: &[u8], i: usize, hash: [u8; 32]) -> bool
    requires { (commits_ok t.now ≡ true) × (i < count_of t.now) }
    ensures { result ≡ is_hash (commit_at t.now i).hash hash }
{
    fields::commit_hash_is(t, row(t, i), hash)
}

// Whether it has a segment.
pub fn has_segment_at(t: &[u8], i: usize) -> bool
    requires { (commits_ok t.now ≡ true) × (i < count_of t.now) }
    ensures { result ≡ is_some (commit_at t.now i).segment }
{
    match fields::commit_has_segment(t, row(t, i)) {
        Presence::Given => true,
        Presence::Missing => false,
    }
}

// Whether its segment is there and has that identifier.
pub fn sid_is(t: &[u8], i: usize, sid: SegmentId) -> bool
    requires { (commits_ok t.now ≡ true) × (i < count_of t.now) }
    ensures { result ≡ has_sid sid (commit_at t.now i).segment }
{
    fields::commit_sid_is(t, row(t, i), sid)
}

// ---- lookups

// Where the log's commit at an LSN stands.
pub fn find_commit(t: &[u8], log: LogId, lsn: u64) -> Option<usize>
    requires { commits_ok t.now ≡ true }
    ensures { PlaceOf t.now (get_commit (commits_in t.now) log lsn) result }
{
    let key = log_key(log, lsn);
    match table::find(t, COMMIT, COMMIT_KEY, &key) {
        Ok(i) => Some(i),
        Err(_) => None,
    }
}

// Where the log's latest commit stands: the first record at or after the key of the last LSN, if it is the log's.
pub fn latest(t: &[u8], log: LogId) -> Option<usize>
    requires { commits_ok t.now ≡ true }
    ensures { PlaceOf t.now (latest (commits_in t.now) log) result }
{
    let key = log_key(log, 18446744073709551615);
    let i = table::from_key(t, COMMIT, COMMIT_KEY, &key);
    if i == table::count(t) {
        return None;
    }
    if !log_is(t, i, log) {
        return None;
    }
    Some(i)
}

// The run of the log's commits from the LSN `end` down to `start`.
pub fn range_run(t: &[u8], log: LogId, start: u64, end: u64) -> table::Run
    requires { commits_ok t.now ≡ true }
    ensures { RunOfRange t.now (record { log = log; start = start; end = end }) result.from result.to }
{
    let first = log_key(log, end);
    let last = log_key(log, start);
    table::between(t, COMMIT, COMMIT_KEY, &first, &last)
}
