// The ends of a push, success and recover; and open.
ghost use Rattle.rules.specs.Calls.{succeeding, recovering, opening};
ghost use Rattle.layout.specs.Tables.{volumes_in, volumes_ok, commits_in};
ghost use Rattle.writecalls.specs.Written.{commit_in, logs_in};
ghost use Rattle.opencalls.specs.Opens.{wanted_by, asked, spares};
ghost use Rattle.keeping.specs.Frame.{Keeps};
ghost use Rattle.keeping.specs.Stays.{StaysFormed, LogsStayFormed, StaysExact, StaysExactWhile};
ghost use Rattle.keeping.specs.Holding.{volumes_and, volumes_and_logs};

use arguments::Reply;
use boundary::pushcall::{sigatuda_open, sigatuda_recover, sigatuda_success};

// Success; the index stays exact while the commit that it replaces has no page that it lacks.
pub fn success(
    volumes: &mut [u8],
    commits: &mut [u8],
    checkpoints: &mut [u8],
    index: &mut [u8],
    vid: &[u8; 16],
    commit: &[u8],
) -> Reply
    ensures keeps { Keeps (volumes_and_logs (volumes_in volumes.old) (logs_in commits.old checkpoints.old index.old)) (succeeding vid.now (commit_in commit.now)) (volumes_and_logs (volumes_in volumes.new) (logs_in commits.new checkpoints.new index.new)) }
    ensures stays_formed { StaysFormed volumes_ok volumes.old volumes.new }
    ensures logs_stay_formed { LogsStayFormed commits.old checkpoints.old index.old commits.new checkpoints.new index.new }
    ensures stays_exact_while { StaysExactWhile commits.old index.old commits.new index.new }
{
    sigatuda_success(volumes, commits, checkpoints, index, vid, commit)
}

// Recover; it stores again what is stored, so the index stays exact.
pub fn recover(
    volumes: &mut [u8],
    commits: &mut [u8],
    checkpoints: &mut [u8],
    index: &mut [u8],
    vid: &[u8; 16],
) -> Reply
    ensures keeps { Keeps (volumes_and_logs (volumes_in volumes.old) (logs_in commits.old checkpoints.old index.old)) (recovering vid.now) (volumes_and_logs (volumes_in volumes.new) (logs_in commits.new checkpoints.new index.new)) }
    ensures stays_formed { StaysFormed volumes_ok volumes.old volumes.new }
    ensures logs_stay_formed { LogsStayFormed commits.old checkpoints.old index.old commits.new checkpoints.new index.new }
    ensures stays_exact { StaysExact commits.old index.old commits.new index.new }
{
    sigatuda_recover(volumes, commits, checkpoints, index, vid)
}

// Open.
pub fn open(
    volumes: &mut [u8],
    commits: &[u8],
    has_vid: u32,
    vid: [u8; 16],
    has_local: u32,
    local: [u8; 16],
    has_remote: u32,
    remote: [u8; 16],
    spare_vid: [u8; 16],
    spare_local: [u8; 16],
    spare_remote: [u8; 16],
    out: &mut [u8],
) -> Reply
    ensures keeps { Keeps (volumes_and (commits_in commits.now) (volumes_in volumes.old)) (opening (asked (wanted_by has_vid vid spare_vid) (wanted_by has_local local spare_local) (wanted_by has_remote remote spare_remote)) (spares (wanted_by has_vid vid spare_vid) (wanted_by has_local local spare_local) (wanted_by has_remote remote spare_remote))) (volumes_and (commits_in commits.now) (volumes_in volumes.new)) }
    ensures stays_formed { StaysFormed volumes_ok volumes.old volumes.new }
{
    sigatuda_open(
        volumes,
        commits,
        has_vid,
        &vid,
        has_local,
        &local,
        has_remote,
        &remote,
        &spare_vid,
        &spare_local,
        &spare_remote,
        out,
    )
}
