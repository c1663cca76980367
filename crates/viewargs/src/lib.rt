// What a reader sees of a volume, with snapshots in bytes: the call by value is made once, and the numbers of the bytes take their turn in its answer.
#![tactic(auto)]

ghost use Rattle.std.specs.Prelude.{◌≡◌, ◌&&◌};
ghost use Rattle.basics.specs.Refusals.{code_of};
ghost use Rattle.pagecalls.specs.Says.{yes_says};
ghost use Rattle.rules.specs.Snapshots.{snapshot as snapshot_rule};
ghost use Rattle.layout.specs.Tables.{volumes_in, volumes_ok, commits_in, commits_ok};
ghost use Rattle.layout.specs.Values.{snapshot_bytes};
ghost use Rattle.layout.specs.Lent.{lent};
ghost use Rattle.arguments.specs.Replies.{none_under, value, placed};
ghost use Rattle.viewargs.specs.Views.{latest_in, misplaced as misplaced_number, unformed as unformed_answer};

use arguments::Reply;
use arguments::replies::refused;
use arguments::snapshots::{put_snapshot, snapshot_arg, snapshot_ok};
use basics::id::VolumeId;
use basics::refusal::Refusal;
use layout::SNAPSHOT;
use volume::snapshot::Snapshot;

// The reply of a snapshot's call whose place has another length: 20 stays, all else is 3.
fn misplaced(a: Result<Snapshot, Refusal>) -> Reply
    ensures { result ≡ none_under (misplaced_number (code_of a)) }
{
    match a {
        Err(Refusal::TableForm) => refused(Refusal::TableForm),
        Err(_) => refused(Refusal::Form),
        Ok(_) => refused(Refusal::Form),
    }
}

// The snapshot of the volume of an identifier, to `out`: 20, 3 for a place of another length, 4.
pub fn snapshot(volumes: &[u8], commits: &[u8], vid: VolumeId, out: &mut [u8]) -> Reply
    ensures { (result, out.new) ≡ value snapshot_bytes.spell out.old (lent (volumes_ok volumes.now && commits_ok commits.now) (placed snapshot_bytes.size out.old (snapshot_rule (volumes_in volumes.now) (commits_in commits.now) vid))) }
{
    let a = viewcalls::snapshot(volumes, commits, vid);
    if out.len() != SNAPSHOT {
        return misplaced(a);
    }
    put_snapshot(a, out)
}

// The answer of the latest check where the bytes of the snapshot are not in form: 20, 1 and 2 stay, all else is 3.
fn unformed(a: Result<bool, Refusal>) -> Result<bool, Refusal>
    ensures { yes_says result ≡ unformed_answer (yes_says a) }
{
    match a {
        Err(Refusal::NoVolume) => Err(Refusal::Form),
        Err(refusal) => Err(refusal),
        Ok(_) => Err(Refusal::Form),
    }
}

// Whether a snapshot is the latest of the volume of an identifier: 20, 1, 2, 3, 4.
pub fn latest_check(
    volumes: &[u8],
    commits: &[u8],
    vid: VolumeId,
    snapshot: &[u8],
) -> Result<bool, Refusal>
    ensures { yes_says result ≡ lent (volumes_ok volumes.now && commits_ok commits.now) (latest_in (volumes_in volumes.now) (commits_in commits.now) vid snapshot.now) }
{
    let a = viewcalls::latest_check(volumes, commits, vid, snapshot_arg(snapshot));
    if !snapshot_ok(snapshot) {
        return unformed(a);
    }
    a
}
