// Sync, and prepare of a push.
ghost use Rattle.std.specs.Prelude.{◌≡◌, ◌&&◌};
ghost use Rattle.basics.specs.Answers.{code};
ghost use Rattle.rules.specs.Push.{prepare};
ghost use Rattle.rules.specs.Sync.{sync};
ghost use Rattle.layout.specs.Records.{volume_bytes};
ghost use Rattle.layout.specs.Tables.{volumes_in, volumes_ok, commits_in, commits_ok};
ghost use Rattle.layout.specs.Lent.{lent, after};
ghost use Rattle.arguments.specs.Replies.{numbered_reply};

use arguments::{Reply, replies};
use basics::lsn::Lsn;

// A volume's sync point moved to the remote's latest: 20, 4, 16, 8.
pub fn sigatuda_sync(volumes: &mut [u8], commits: &[u8], vid: &[u8; 16]) -> Reply
    ensures value { result ≡ numbered_reply (code (lent (volumes_ok volumes.old && commits_ok commits.now) (sync (volumes_in volumes.old) (commits_in commits.now) vid.now))) }
    ensures volumes_after { volumes.new ≡ after volume_bytes (λ t. t) volumes.old (lent (volumes_ok volumes.old && commits_ok commits.now) (sync (volumes_in volumes.old) (commits_in commits.now) vid.now)) }
{
    replies::numbered(synccalls::sync(volumes, commits, *vid))
}

// A volume's pending commit set, before its push: 20, 1, 4, 9, 11, 12, 13.
pub fn sigatuda_prepare(
    volumes: &mut [u8],
    commits: &[u8],
    vid: &[u8; 16],
    local: u64,
    commit: u64,
    hash: &[u8; 32],
) -> Reply
    ensures value { result ≡ numbered_reply (code (lent (volumes_ok volumes.old && commits_ok commits.now) (prepare (volumes_in volumes.old) (commits_in commits.now) vid.now (record { local = local; commit = commit; hash = hash.now })))) }
    ensures volumes_after { volumes.new ≡ after volume_bytes (λ t. t) volumes.old (lent (volumes_ok volumes.old && commits_ok commits.now) (prepare (volumes_in volumes.old) (commits_in commits.now) vid.now (record { local = local; commit = commit; hash = hash.now }))) }
{
    let prepared = synccalls::prepare(volumes, commits, *vid, Lsn(local), Lsn(commit), *hash);
    replies::numbered(prepared)
}
