// The ends of a push, success and recover; and open.
ghost use Rattle.std.specs.Prelude.{◌≡◌, ℕ, ◌&&◌};
ghost use Rattle.basics.specs.Answers.{code, done};
ghost use Rattle.rules.specs.Records.{Volume};
ghost use Rattle.rules.specs.Tables.{Table};
ghost use Rattle.rules.specs.Write.{Logs};
ghost use Rattle.rules.specs.Push.{recover as recover_rule};
ghost use Rattle.layout.specs.Records.{volume_bytes, commit_bytes, checkpoint_bytes, entry_bytes};
ghost use Rattle.layout.specs.Tables.{volumes_in, volumes_ok, commits_in, commits_ok};
ghost use Rattle.layout.specs.Lent.{lent, after};
ghost use Rattle.writecalls.specs.Written.{logs_in};
ghost use Rattle.pushcalls.specs.Pushes.{push_ok, success_in, number_of};
ghost use Rattle.opencalls.specs.Opens.{wanted_by, asked, spares, open_in, out_after};
ghost use Rattle.arguments.specs.Replies.{numbered_reply};

use arguments::Reply;
use arguments::replies::by_number;
use opencalls::Wanted;

// The pushed commit written, given as its 722 bytes, and the volume's sync point the pending one: 20, 3 for another number of bytes, 1, 3, 4, 10, 14, 15, 19.
pub fn sigatuda_success(
    volumes: &mut [u8],
    commits: &mut [u8],
    checkpoints: &mut [u8],
    index: &mut [u8],
    vid: &[u8; 16],
    commit: &[u8],
) -> Reply
    ensures value { result ≡ numbered_reply (code (lent (push_ok volumes.old commits.old checkpoints.old index.old) (success_in (volumes_in volumes.old) (logs_in commits.old checkpoints.old index.old) vid.now commit.now))) }
    ensures volumes_after { volumes.new ≡ after volume_bytes (λ (r : Table Volume × Logs). r.0) volumes.old (lent (push_ok volumes.old commits.old checkpoints.old index.old) (success_in (volumes_in volumes.old) (logs_in commits.old checkpoints.old index.old) vid.now commit.now)) }
    ensures commits_after { commits.new ≡ after commit_bytes (λ (r : Table Volume × Logs). r.1.commits) commits.old (lent (push_ok volumes.old commits.old checkpoints.old index.old) (success_in (volumes_in volumes.old) (logs_in commits.old checkpoints.old index.old) vid.now commit.now)) }
    ensures checkpoints_after { checkpoints.new ≡ after checkpoint_bytes (λ (r : Table Volume × Logs). r.1.checkpoints) checkpoints.old (lent (push_ok volumes.old commits.old checkpoints.old index.old) (success_in (volumes_in volumes.old) (logs_in commits.old checkpoints.old index.old) vid.now commit.now)) }
    ensures index_after { index.new ≡ after entry_bytes (λ (r : Table Volume × Logs). r.1.index) index.old (lent (push_ok volumes.old commits.old checkpoints.old index.old) (success_in (volumes_in volumes.old) (logs_in commits.old checkpoints.old index.old) vid.now commit.now)) }
{
    let id = *vid;
    by_number(pushcalls::success(volumes, commits, checkpoints, index, id, commit))
}

// What became of a push found out: 20, 4, 19, and 8 with the pending commit dropped.
pub fn sigatuda_recover(
    volumes: &mut [u8],
    commits: &mut [u8],
    checkpoints: &mut [u8],
    index: &mut [u8],
    vid: &[u8; 16],
) -> Reply
    ensures value { result ≡ numbered_reply (number_of (lent (push_ok volumes.old commits.old checkpoints.old index.old) (done (recover_rule (volumes_in volumes.old) (logs_in commits.old checkpoints.old index.old) vid.now)))) }
    ensures volumes_after { volumes.new ≡ after volume_bytes (λ (r : ℕ × Table Volume × Logs). r.1) volumes.old (lent (push_ok volumes.old commits.old checkpoints.old index.old) (done (recover_rule (volumes_in volumes.old) (logs_in commits.old checkpoints.old index.old) vid.now))) }
    ensures commits_after { commits.new ≡ after commit_bytes (λ (r : ℕ × Table Volume × Logs). r.2.commits) commits.old (lent (push_ok volumes.old commits.old checkpoints.old index.old) (done (recover_rule (volumes_in volumes.old) (logs_in commits.old checkpoints.old index.old) vid.now))) }
    ensures checkpoints_after { checkpoints.new ≡ after checkpoint_bytes (λ (r : ℕ × Table Volume × Logs). r.2.checkpoints) checkpoints.old (lent (push_ok volumes.old commits.old checkpoints.old index.old) (done (recover_rule (volumes_in volumes.old) (logs_in commits.old checkpoints.old index.old) vid.now))) }
    ensures index_after { index.new ≡ after entry_bytes (λ (r : ℕ × Table Volume × Logs). r.2.index) index.old (lent (push_ok volumes.old commits.old checkpoints.old index.old) (done (recover_rule (volumes_in volumes.old) (logs_in commits.old checkpoints.old index.old) vid.now))) }
{
    let id = *vid;
    by_number(pushcalls::recover(volumes, commits, checkpoints, index, id))
}

// A volume opened, to `out` (117 bytes): the asked one that is stored, or a new one, with spares for what was not asked (flag 0): 20, 3 for another number of lent bytes, 6, 5, 19.
pub fn sigatuda_open(
    volumes: &mut [u8],
    commits: &[u8],
    has_vid: u32,
    vid: &[u8; 16],
    has_local: u32,
    local: &[u8; 16],
    has_remote: u32,
    remote: &[u8; 16],
    spare_vid: &[u8; 16],
    spare_local: &[u8; 16],
    spare_remote: &[u8; 16],
    out: &mut [u8],
) -> Reply
    ensures value { result ≡ numbered_reply (code (lent (volumes_ok volumes.old && commits_ok commits.now) (open_in (volumes_in volumes.old) (commits_in commits.now) (asked (wanted_by has_vid vid.now spare_vid.now) (wanted_by has_local local.now spare_local.now) (wanted_by has_remote remote.now spare_remote.now)) (spares (wanted_by has_vid vid.now spare_vid.now) (wanted_by has_local local.now spare_local.now) (wanted_by has_remote remote.now spare_remote.now)) out.old))) }
    ensures volumes_after { volumes.new ≡ after volume_bytes (λ (r : Volume × Table Volume). r.1) volumes.old (lent (volumes_ok volumes.old && commits_ok commits.now) (open_in (volumes_in volumes.old) (commits_in commits.now) (asked (wanted_by has_vid vid.now spare_vid.now) (wanted_by has_local local.now spare_local.now) (wanted_by has_remote remote.now spare_remote.now)) (spares (wanted_by has_vid vid.now spare_vid.now) (wanted_by has_local local.now spare_local.now) (wanted_by has_remote remote.now spare_remote.now)) out.old)) }
    ensures out_after { out.new ≡ out_after volume_bytes (λ (r : Volume × Table Volume). r.0) out.old (lent (volumes_ok volumes.old && commits_ok commits.now) (open_in (volumes_in volumes.old) (commits_in commits.now) (asked (wanted_by has_vid vid.now spare_vid.now) (wanted_by has_local local.now spare_local.now) (wanted_by has_remote remote.now spare_remote.now)) (spares (wanted_by has_vid vid.now spare_vid.now) (wanted_by has_local local.now spare_local.now) (wanted_by has_remote remote.now spare_remote.now)) out.old)) }
{
    let asked_vid = *vid;
    let asked_local = *local;
    let asked_remote = *remote;
    let other_vid = *spare_vid;
    let other_local = *spare_local;
    let other_remote = *spare_remote;
    let v = Wanted {
        asked: 0 < has_vid,
        id: asked_vid,
        spare: other_vid,
    };
    let l = Wanted {
        asked: 0 < has_local,
        id: asked_local,
        spare: other_local,
    };
    let r = Wanted {
        asked: 0 < has_remote,
        id: asked_remote,
        spare: other_remote,
    };
    by_number(opencalls::open(volumes, commits, v, l, r, out))
}
