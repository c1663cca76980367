// Sync; prepare.
ghost use Rattle.rules.specs.Calls.{syncing, preparing};
ghost use Rattle.layout.specs.Tables.{volumes_in, commits_in, volumes_ok};
ghost use Rattle.keeping.specs.Frame.{Keeps};
ghost use Rattle.keeping.specs.Stays.{StaysFormed};
ghost use Rattle.keeping.specs.Holding.{volumes_and};

use arguments::Reply;
use boundary::synccall::{sigatuda_prepare, sigatuda_sync};

// Sync.
pub fn sync(volumes: &mut [u8], commits: &[u8], vid: &[u8; 16]) -> Reply
    ensures keeps { Keeps (volumes_and (commits_in commits.now) (volumes_in volumes.old)) (syncing vid.now) (volumes_and (commits_in commits.now) (volumes_in volumes.new)) }
    ensures stays_formed { StaysFormed volumes_ok volumes.old volumes.new }
{
    sigatuda_sync(volumes, commits, vid)
}

// Prepare.
pub fn prepare(
    volumes: &mut [u8],
    commits: &[u8],
    vid: &[u8; 16],
    local: u64,
    commit: u64,
    hash: [u8; 32],
) -> Reply
    ensures keeps { Keeps (volumes_and (commits_in commits.now) (volumes_in volumes.old)) (preparing vid.now (record { local = local; commit = commit; hash = hash })) (volumes_and (commits_in commits.now) (volumes_in volumes.new)) }
    ensures stays_formed { StaysFormed volumes_ok volumes.old volumes.new }
{
    sigatuda_prepare(volumes, commits, vid, local, commit, &hash)
}
