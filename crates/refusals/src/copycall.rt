// Volumes made from commits that are stored.
ghost use Rattle.refusals.specs.Refusals.{AsFound};

use arguments::Reply;
use boundary::copycall::{sigatuda_volume_from_logref, sigatuda_volume_from_snapshot};

// Volume from snapshot: refused, it leaves the volumes, the commits, the checkpoints, the index and the place of the answer as found.
pub fn volume_from_snapshot(
    volumes: &mut [u8],
    commits: &mut [u8],
    checkpoints: &mut [u8],
    index: &mut [u8],
    snapshot: &[u8],
    vid: &[u8; 16],
    local: &[u8; 16],
    remote: &[u8; 16],
    out: &mut [u8],
) -> Reply
    ensures as_found { AsFound result volumes.old volumes.new }
    ensures as_found_2 { AsFound result commits.old commits.new }
    ensures as_found_3 { AsFound result checkpoints.old checkpoints.new }
    ensures as_found_4 { AsFound result index.old index.new }
    ensures as_found_5 { AsFound result out.old out.new }
{
    sigatuda_volume_from_snapshot(
        volumes,
        commits,
        checkpoints,
        index,
        snapshot,
        vid,
        local,
        remote,
        out,
    )
}

// Volume from a logref: refused, it leaves the volumes, the commits, the checkpoints, the index and the place of the answer as found.
pub fn volume_from_logref(
    volumes: &mut [u8],
    commits: &mut [u8],
    checkpoints: &mut [u8],
    index: &mut [u8],
    log: &[u8; 16],
    lsn: u64,
    vid: &[u8; 16],
    local: &[u8; 16],
    remote: &[u8; 16],
    out: &mut [u8],
) -> Reply
    ensures as_found { AsFound result volumes.old volumes.new }
    ensures as_found_2 { AsFound result commits.old commits.new }
    ensures as_found_3 { AsFound result checkpoints.old checkpoints.new }
    ensures as_found_4 { AsFound result index.old index.new }
    ensures as_found_5 { AsFound result out.old out.new }
{
    sigatuda_volume_from_logref(
        volumes,
        commits,
        checkpoints,
        index,
        log,
        lsn,
        vid,
        local,
        remote,
        out,
    )
}
