// Sync; prepare.
ghost use Rattle.refusals.specs.Refusals.{AsFound};

use arguments::Reply;
use boundary::synccall::{sigatuda_prepare, sigatuda_sync};

// Sync: refused, it leaves the volumes as found.
pub fn sync(volumes: &mut [u8], commits: &[u8], vid: &[u8; 16]) -> Reply
    ensures { AsFound result volumes.old volumes.new }
{
    sigatuda_sync(volumes, commits, vid)
}

// Prepare: refused, it leaves the volumes as found.
pub fn prepare(
    volumes: &mut [u8],
    commits: &[u8],
    vid: &[u8; 16],
    local: u64,
    commit: u64,
    hash: &[u8; 32],
) -> Reply
    ensures { AsFound result volumes.old volumes.new }
{
    sigatuda_prepare(volumes, commits, vid, local, commit, hash)
}
