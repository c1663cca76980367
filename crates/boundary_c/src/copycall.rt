// Volumes made from commits that are stored.
ghost use Rattle.std.specs.Prelude.{◌≡◌, length};
ghost use Rattle.copycalls.specs.Making.{ids, snapshot_on, logref_on, Leaves};

use arguments::Reply;

// A new volume whose local log has copies of a snapshot's commits: 20, 1, 2, 3, 5, 19.
#[unsafe(no_mangle)]
pub extern "C" fn sigatuda_volume_from_snapshot(
    volumes: &mut [u8],
    commits: &mut [u8],
    checkpoints: &mut [u8],
    index: &mut [u8],
    snapshot: &[u8],
    vid: &[u8; 16],
    local: &[u8; 16],
    remote: &[u8; 16],
    out: &mut [u8],
) -> Reply
    ensures { Leaves volumes.old commits.old checkpoints.old index.old out.old (snapshot_on volumes.old commits.old checkpoints.old index.old snapshot.now (ids vid.now local.now remote.now) (length out.old)) result volumes.new commits.new checkpoints.new index.new out.new }
{
    boundary::copycall::sigatuda_volume_from_snapshot(
        volumes,
        commits,
        checkpoints,
        index,
        snapshot,
        vid,
        local,
        remote,
        out,
    )
}

// A new volume whose local log has copies of a log's commits up to one that is stored, or nothing: 20, 1, 3, 5, 19.
#[unsafe(no_mangle)]
pub extern "C" fn sigatuda_volume_from_logref(
    volumes: &mut [u8],
    commits: &mut [u8],
    checkpoints: &mut [u8],
    index: &mut [u8],
    log: &[u8; 16],
    lsn: u64,
    vid: &[u8; 16],
    local: &[u8; 16],
    remote: &[u8; 16],
    out: &mut [u8],
) -> Reply
    ensures { Leaves volumes.old commits.old checkpoints.old index.old out.old (logref_on volumes.old commits.old checkpoints.old index.old log.now lsn (ids vid.now local.now remote.now) (length out.old)) result volumes.new commits.new checkpoints.new index.new out.new }
{
    boundary::copycall::sigatuda_volume_from_logref(
        volumes,
        commits,
        checkpoints,
        index,
        log,
        lsn,
        vid,
        local,
        remote,
        out,
    )
}
