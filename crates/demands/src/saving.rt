// T7 over save, snapshot and search; T5 and T2 over save.
ghost use Rattle.rules.specs.Calls.{saving};
ghost use Rattle.layout.specs.Values.{set_bytes};
ghost use Rattle.layout.specs.Tables.{presence_ok};
ghost use Rattle.arguments.specs.Snapshots.{snapshot_in};
ghost use Rattle.keeping.specs.Frame.{Keeps};
ghost use Rattle.keeping.specs.Stays.{StaysFormed, LogsStayFormed, StaysExact};
ghost use Rattle.demands.specs.Frame.{tables_in};
ghost use Rattle.demands.specs.Saved.{SavedIsFound};

use arguments::Reply;
use boundary::savecall::sigatuda_save;
use boundary::searchcall::sigatuda_search;
use boundary::viewcall::sigatuda_snapshot;

// What a save, a snapshot and a search answered.
#[derive(Clone, Copy)]
pub struct Replies {
    pub saved: Reply,
    pub taken: Reply,
    pub found: Reply,
}

// Save, then snapshot, then search finds the new commit for each page written: `seen` is the place of the snapshot, `out` that of the commit.
pub fn save_and_find(
    volumes: &[u8],
    commits: &mut [u8],
    checkpoints: &mut [u8],
    index: &mut [u8],
    presence: &mut [u8],
    vid: &[u8; 16],
    snapshot: &[u8],
    count: u32,
    sid: [u8; 16],
    pages: &[u8],
    page: u32,
    seen: &mut [u8],
    out: &mut [u8],
) -> Replies
    ensures { SavedIsFound volumes.now commits.old index.old vid.now count sid pages.now page out.old result.saved result.taken result.found out.new }
{
    let saved = sigatuda_save(
        volumes,
        commits,
        checkpoints,
        index,
        presence,
        vid,
        snapshot,
        count,
        &sid,
        pages,
        seen,
    );
    let taken = sigatuda_snapshot(volumes, commits, vid, seen);
    let found = sigatuda_search(commits, index, seen, page, out);
    Replies {
        saved,
        taken,
        found,
    }
}

// Save leaves every record that it does not name: it removes none, stores one commit, at the LSN after the latest of the volume's local log, and marks the pages of its segment. What is formed stays formed, and the index stays exact.
pub fn save(
    volumes: &[u8],
    commits: &mut [u8],
    checkpoints: &mut [u8],
    index: &mut [u8],
    presence: &mut [u8],
    vid: &[u8; 16],
    snapshot: &[u8],
    count: u32,
    sid: [u8; 16],
    pages: &[u8],
    out: &mut [u8],
) -> Reply
    ensures keeps { Keeps (tables_in volumes.now commits.old checkpoints.old index.old presence.old) (saving vid.now (snapshot_in snapshot.now) count sid (set_bytes.read pages.now)) (tables_in volumes.now commits.new checkpoints.new index.new presence.new) }
    ensures logs_stay_formed { LogsStayFormed commits.old checkpoints.old index.old commits.new checkpoints.new index.new }
    ensures stays_formed { StaysFormed presence_ok presence.old presence.new }
    ensures stays_exact { StaysExact commits.old index.old commits.new index.new }
{
    sigatuda_save(
        volumes,
        commits,
        checkpoints,
        index,
        presence,
        vid,
        snapshot,
        count,
        &sid,
        pages,
        out,
    )
}
