// Volumes made from commits that are stored: a copy stores in a log that has no commit, so the index stays exact.
ghost use Rattle.rules.specs.Calls.{copying, copying_ref};
ghost use Rattle.layout.specs.Tables.{volumes_in, volumes_ok};
ghost use Rattle.arguments.specs.Snapshots.{snapshot_in};
ghost use Rattle.writecalls.specs.Written.{logs_in};
ghost use Rattle.copycalls.specs.Making.{ids};
ghost use Rattle.keeping.specs.Frame.{Keeps};
ghost use Rattle.keeping.specs.Stays.{StaysFormed, LogsStayFormed, StaysExact};
ghost use Rattle.keeping.specs.Holding.{volumes_and_logs};

use arguments::Reply;
use boundary::copycall::{sigatuda_volume_from_logref, sigatuda_volume_from_snapshot};

// Volume from snapshot.
pub fn volume_from_snapshot(
    volumes: &mut [u8],
    commits: &mut [u8],
    checkpoints: &mut [u8],
    index: &mut [u8],
    snapshot: &[u8],
    vid: [u8; 16],
    local: [u8; 16],
    remote: [u8; 16],
    out: &mut [u8],
) -> Reply
    ensures keeps { Keeps (volumes_and_logs (volumes_in volumes.old) (logs_in commits.old checkpoints.old index.old)) (copying (snapshot_in snapshot.now) (ids vid local remote)) (volumes_and_logs (volumes_in volumes.new) (logs_in commits.new checkpoints.new index.new)) }
    ensures stays_formed { StaysFormed volumes_ok volumes.old volumes.new }
    ensures logs_stay_formed { LogsStayFormed commits.old checkpoints.old index.old commits.new checkpoints.new index.new }
    ensures stays_exact { StaysExact commits.old index.old commits.new index.new }
{
    sigatuda_volume_from_snapshot(
        volumes,
        commits,
        checkpoints,
        index,
        snapshot,
        &vid,
        &local,
        &remote,
        out,
    )
}

// Volume from a logref.
pub fn volume_from_logref(
    volumes: &mut [u8],
    commits: &mut [u8],
    checkpoints: &mut [u8],
    index: &mut [u8],
    log: &[u8; 16],
    lsn: u64,
    vid: [u8; 16],
    local: [u8; 16],
    remote: [u8; 16],
    out: &mut [u8],
) -> Reply
    ensures keeps { Keeps (volumes_and_logs (volumes_in volumes.old) (logs_in commits.old checkpoints.old index.old)) (copying_ref log.now lsn (ids vid local remote)) (volumes_and_logs (volumes_in volumes.new) (logs_in commits.new checkpoints.new index.new)) }
    ensures stays_formed { StaysFormed volumes_ok volumes.old volumes.new }
    ensures logs_stay_formed { LogsStayFormed commits.old checkpoints.old index.old commits.new checkpoints.new index.new }
    ensures stays_exact { StaysExact commits.old index.old commits.new index.new }
{
    sigatuda_volume_from_logref(
        volumes,
        commits,
        checkpoints,
        index,
        log,
        lsn,
        &vid,
        &local,
        &remote,
        out,
    )
}
