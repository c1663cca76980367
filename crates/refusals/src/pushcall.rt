// The ends of a push, success and recover; and open.
ghost use Rattle.std.specs.Prelude.{◌≡◌, ◌≢◌};
ghost use Rattle.refusals.specs.Refusals.{AsFound, Drops};

use arguments::Reply;
use boundary::pushcall::{sigatuda_open, sigatuda_recover, sigatuda_success};

// Success: refused, it leaves the volumes, the commits, the checkpoints and the index as found.
pub fn success(
    volumes: &mut [u8],
    commits: &mut [u8],
    checkpoints: &mut [u8],
    index: &mut [u8],
    vid: &[u8; 16],
    commit: &[u8],
) -> Reply
    ensures as_found { AsFound result volumes.old volumes.new }
    ensures as_found_2 { AsFound result commits.old commits.new }
    ensures as_found_3 { AsFound result checkpoints.old checkpoints.new }
    ensures as_found_4 { AsFound result index.old index.new }
{
    sigatuda_success(volumes, commits, checkpoints, index, vid, commit)
}

// Recover: its 8 drops the pending commit of its volume, and leaves all else as found.
pub fn recover(
    volumes: &mut [u8],
    commits: &mut [u8],
    checkpoints: &mut [u8],
    index: &mut [u8],
    vid: &[u8; 16],
) -> Reply
    ensures as_found { (result.code ≢ 8) → AsFound result volumes.old volumes.new × (AsFound result commits.old commits.new × (AsFound result checkpoints.old checkpoints.new × AsFound result index.old index.new)) }
    ensures drops { result.code ≡ 8 → Drops volumes.old commits.old checkpoints.old index.old vid.now result volumes.new commits.new checkpoints.new index.new }
{
    sigatuda_recover(volumes, commits, checkpoints, index, vid)
}

// Open: refused, it leaves the volumes and the place of the answer as found.
pub fn open(
    volumes: &mut [u8],
    commits: &[u8],
    has_vid: u32,
    vid: &[u8; 16],
    has_local: u32,
    local: &[u8; 16],
    has_remote: u32,
    remote: &[u8; 16],
    spare_vid: &[u8; 16],
    spare_local: &[u8; 16],
    spare_remote: &[u8; 16],
    out: &mut [u8],
) -> Reply
    ensures as_found { AsFound result volumes.old volumes.new }
    ensures as_found_2 { AsFound result out.old out.new }
{
    sigatuda_open(
        volumes,
        commits,
        has_vid,
        vid,
        has_local,
        local,
        has_remote,
        remote,
        spare_vid,
        spare_local,
        spare_remote,
        out,
    )
}
