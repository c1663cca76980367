// Snapshots in bytes: as arguments, and as answers.
ghost use Rattle.std.specs.Prelude.{◌≡◌, true};
ghost use Rattle.basics.specs.Answers.{done};
ghost use Rattle.basics.specs.Refusals.{code_of};
ghost use Rattle.volume.specs.Snapshots.{laid, answer_form, head_says};
ghost use Rattle.arguments.specs.Replies.{none_under, value_or};
ghost use Rattle.arguments.specs.Snapshots.{snapshot_in, snapshot_formed, snapshot_put, or_three};

use super::Reply;
use super::replies::refused;
use basics::logref::LogRef;
use basics::page_count::PageCount;
use basics::refusal::Refusal;
use layout::SNAPSHOT;
use snapshotbytes::{snapshot_form, snapshot_read, snapshot_write};
use volume::snapshot::Snapshot;

// The snapshot that an argument spells, of no range where its length is wrong.
pub fn snapshot_arg(b: &[u8]) -> Snapshot
    ensures { result ≡ laid (snapshot_in b.now) }
{
    if b.len() != SNAPSHOT {
        return Snapshot::empty(PageCount(0));
    }
    snapshot_read(b, 0)
}

// Whether an argument has a snapshot's size and form; where it does not, number 3.
pub fn snapshot_ok(b: &[u8]) -> bool
    ensures { result ≡ snapshot_formed b.now }
{
    if b.len() != SNAPSHOT {
        return false;
    }
    snapshot_form(b, 0)
}

// A snapshot's answer in bytes: the number of the call; 3 for a lent slice of another length; or the snapshot.
pub fn put_snapshot(a: Result<Snapshot, Refusal>, out: &mut [u8]) -> Reply
    requires { answer_form a ≡ true }
    ensures { (result, out.new) ≡ snapshot_put out.old a }
{
    match a {
        Err(refusal) => refused(refusal),
        Ok(snapshot) => {
            if out.len() != SNAPSHOT {
                return refused(Refusal::Form);
            }
            snapshot_write(out, 0, snapshot);
            Reply { code: 0, found: 1 }
        }
    }
}

// The reply of a call whose snapshot is not in form: its own 1 or 2, else 3.
pub fn or_three(a: Result<Snapshot, Refusal>) -> Reply
    ensures { result ≡ none_under (or_three (code_of a)) }
{
    match a {
        Err(refusal) => refused(refusal),
        Ok(_) => refused(Refusal::Form),
    }
}

// A head or nothing: its log and its LSN.
pub fn put_head(head: Option<LogRef>, log: &mut [u8; 16], lsn: &mut u64) -> Reply
    ensures { (result, (log.new, lsn.new)) ≡ value_or (λ x. x) (log.old, lsn.old) (done (head_says head)) }
{
    match head {
        None => Reply { code: 0, found: 0 },
        Some(at) => {
            let id = at.log;
            *log = id;
            *lsn = at.lsn.0;
            Reply { code: 0, found: 1 }
        }
    }
}
