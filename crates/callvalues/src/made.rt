// What a line's values are for the calls: identifiers, page sets and commits in bytes, and heads of what the calls answer.
ghost use Rattle.std.specs.Prelude.{◌≡◌, true, length};
ghost use Rattle.std.proofs.Math.Option.{some};
ghost use Rattle.pageset.specs.Sets.{shown, normal};
ghost use Rattle.volume.specs.Snapshots.{head_of, head_says as says_head};
ghost use Rattle.layout.specs.Values.{set_bytes};
ghost use Rattle.layout.specs.Records.{commit_bytes};
ghost use Rattle.arguments.specs.Snapshots.{snapshot_in};
ghost use Rattle.commitbytes.specs.Laid.{commit_laid};
ghost use Rattle.calltext.specs.Says.{head_says};
ghost use Rattle.callvalues.specs.Values.{id_of, fetched, shortly, commit_head};

use arguments::snapshots::snapshot_arg;
use basics::id::{LogId, SegmentId};
use basics::logref::LogRef;
use basics::lsn::Lsn;
use basics::page_count::PageCount;
use calltext::Head;
use commit::{Commit, SegmentIdx};
use commitbytes::commit_write;
use commitbytes::fields::{commit_log, commit_lsn};
use pageset::PageSet;
use setbytes::set_write;

// The identifier of a last byte.
pub fn id_of(last: u8) -> [u8; 16]
    ensures { result ≡ id_of last }
{
    let mut id = [0u8; 16];
    id[15] = last;
    id
}

// A set in its byte form.
pub fn set_bytes(set: PageSet) -> [u8; 385]
    requires { normal set ≡ true }
    ensures { result ≡ set_bytes.spell (shown set) }
{
    let mut bytes = [0u8; 385];
    set_write(&mut bytes, 0, set);
    bytes
}

// The commit of a fetch.
fn fetched_commit(log: LogId, lsn: Lsn, count: PageCount, sid: SegmentId, set: PageSet) -> Commit
    requires { normal set ≡ true }
    ensures { result ≡ commit_laid (fetched log lsn.0 count.0 sid (shown set)) }
{
    Commit::new(log, lsn, count).with_segment_idx(SegmentIdx::new(sid, set))
}

// Its bytes.
pub fn fetched_bytes(
    log: LogId,
    lsn: Lsn,
    count: PageCount,
    sid: SegmentId,
    set: PageSet,
) -> [u8; 722]
    requires { normal set ≡ true }
    ensures { result ≡ commit_bytes.spell (fetched log lsn.0 count.0 sid (shown set)) }
{
    let c = fetched_commit(log, lsn, count, sid, set);
    let mut bytes = [0u8; 722];
    commit_write(&mut bytes, 0, c);
    bytes
}

// A snapshot's head as it is printed.
pub fn short_head(head: Option<LogRef>) -> Head
    ensures { head_says result ≡ shortly (says_head head) }
{
    let Some(at) = head else {
        return Head::Nothing;
    };
    let log = at.log;
    Head::At(log[15], at.lsn.0)
}

// The head of a snapshot in bytes, as it is printed.
pub fn snapshot_head(b: &[u8]) -> Head
    ensures { head_says result ≡ shortly (head_of (snapshot_in b.now)) }
{
    short_head(snapshot_arg(b).head())
}

// The log and the LSN of a commit in bytes, as they are printed.
pub fn commit_head(b: &[u8]) -> Head
    requires { length b.now ≡ 722 }
    ensures { head_says result ≡ commit_head (some (commit_bytes.read b.now)) }
{
    let log = commit_log(b, 0);
    Head::At(log[15], commit_lsn(b, 0).0)
}
