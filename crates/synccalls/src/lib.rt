// The calls that move a volume's sync point and its pending commit by what the logs hold: sync, and prepare of a push. Each answers on every input, 20 first.
#![tactic(auto)]

ghost use Rattle.std.specs.Prelude.{◌≡◌, true, ◌&&◌};
ghost use Rattle.std.proofs.Math.Option.{some};
ghost use Rattle.basics.specs.Answers.{code};
ghost use Rattle.basics.specs.Refusals.{code_of};
ghost use Rattle.basics.specs.Numbers.{counts};
ghost use Rattle.rules.specs.Lists.{is_none};
ghost use Rattle.rules.specs.Push.{is_before, prepare as prepare_rule};
ghost use Rattle.rules.specs.Forms.{lsn_form, pending_form, volume_form};
ghost use Rattle.rules.specs.Tables.{latest_lsn};
ghost use Rattle.rules.specs.Snapshots.{remote_of};
ghost use Rattle.rules.specs.Sync.{not_older, sync_by, sync as sync_rule};
ghost use Rattle.volume.specs.Volumes.{maybe_lsn_says, sync_says, volume_says};
ghost use Rattle.layout.specs.Records.{volume_bytes};
ghost use Rattle.layout.specs.Tables.{volumes_in, volumes_ok, commits_in, commits_ok};
ghost use Rattle.layout.specs.Lent.{lent, after};
ghost use Rattle.synccalls.specs.Pulls.{sync_found, Pulls};

use basics::commit_hash;
use basics::commit_hash::CommitHash;
use basics::id::{LogId, VolumeId};
use basics::lsn::Lsn;
use basics::refusal::Refusal;
use commits::{commits_formed, lsn_at};
use viewcalls::{is_below, remote_of, watermark_of};
use volume::volume::{PendingCommit, SyncPoint, Volume, changes};
use volumes::{find_volume, store_volume, volume_at, volumes_formed};

// ---- what a volume's changes go by

// The log's latest LSN, which is missing where it has no commit.
fn latest_lsn(commits: &[u8], log: LogId) -> Option<Lsn>
    requires { commits_ok commits.now ≡ true }
    ensures { maybe_lsn_says result ≡ latest_lsn (commits_in commits.now) log }
{
    let Some(i) = commits::latest(commits, log) else {
        return None;
    };
    Some(Lsn(lsn_at(commits, i)))
}

// ---- sync

// Where the remote has changes up to an LSN: the move there, unless the local log has changes too (8) or lost its watermark (16).
fn pull_to(commits: &[u8], v: Volume, end: Lsn) -> Result<Option<Lsn>, Refusal>
    requires commits_value { (commits_ok commits.now ≡ true) × (volume_form (volume_says v) ≡ true) }
    requires end_value { (lsn_form end.0 ≡ true) × (not_older (remote_of (sync_says v.sync)) end.0 ≡ true) }
    ensures { Pulls (λ vs. sync_by vs (commits_in commits.now) (volume_says v) (some (1, end.0))) (volume_says v) result }
{
    let watermark = watermark_of(v.sync);
    let head = latest_lsn(commits, v.local);
    match changes(watermark, head)? {
        None => Ok(Some(end)),
        Some(_) => Err(Refusal::Diverged),
    }
}

// The LSN of the remote to which sync moves a volume, or nothing: without changes of the remote, where the local log is not looked at.
fn pull_of(commits: &[u8], v: Volume) -> Result<Option<Lsn>, Refusal>
    requires { (commits_ok commits.now ≡ true) × (volume_form (volume_says v) ≡ true) }
    ensures { Pulls (λ vs. sync_found vs (commits_in commits.now) (volume_says v)) (volume_says v) result }
{
    let synced = remote_of(v.sync);
    let head = latest_lsn(commits, v.remote);
    match changes(synced, head)? {
        None => Ok(None),
        Some(range) => pull_to(commits, v, range.end),
    }
}

// A volume's sync point moved to the remote's latest: 20, 4, 16, 8.
pub fn sync(volumes: &mut [u8], commits: &[u8], vid: VolumeId) -> Result<(), Refusal>
    ensures value { code_of result ≡ code (lent (volumes_ok volumes.old && commits_ok commits.now) (sync_rule (volumes_in volumes.old) (commits_in commits.now) vid)) }
    ensures volumes_after { volumes.new ≡ after volume_bytes (λ t. t) volumes.old (lent (volumes_ok volumes.old && commits_ok commits.now) (sync_rule (volumes_in volumes.old) (commits_in commits.now) vid)) }
{
    if !volumes_formed(volumes) {
        return Err(Refusal::TableForm);
    }
    if !commits_formed(commits) {
        return Err(Refusal::TableForm);
    }
    let Ok(i) = find_volume(volumes, vid) else {
        return Err(Refusal::NoVolume);
    };
    let v = volume_at(volumes, i);
    let Some(remote) = pull_of(commits, v)? else {
        return Ok(());
    };
    let watermark = watermark_of(v.sync);
    let point = SyncPoint { remote, watermark };
    store_volume(volumes, i, v.with_sync(Some(point)));
    Ok(())
}

// ---- prepare

// Whether neither LSN is 0.
fn both_count(local: u64, commit: u64) -> bool
    ensures { result ≡ counts local && counts commit }
{
    if local == 0 {
        return false;
    }
    0 < commit
}

// Whether nothing is pending.
fn none_pending(v: Volume) -> bool
    ensures { result ≡ is_none (volume_says v).pending }
{
    v.pending.is_none()
}

// Whether an LSN is the one after a log's latest, and 1 where that is missing.
fn is_next(latest: Option<Lsn>, lsn: u64) -> bool
    ensures { result ≡ is_before (maybe_lsn_says latest) lsn }
{
    let Some(last) = latest else {
        return lsn == 1;
    };
    if lsn == 0 {
        return false;
    }
    last.0 == lsn - 1
}

// A pending commit of these fields; neither of its LSNs is 0.
fn to_push(local: Lsn, commit: Lsn, hash: CommitHash) -> PendingCommit
    requires { (counts local.0 && counts commit.0) ≡ true }
    ensures value { result ≡ record { local = local; commit = commit; hash = hash } }
    ensures form { pending_form (record { local = local.0; commit = commit.0; hash = hash }) ≡ true }
{
    PendingCommit {
        local,
        commit,
        hash,
    }
}

// A volume's pending commit set, before its push: 20, 1, 4, 9, 11, 12, 13.
pub fn prepare(
    volumes: &mut [u8],
    commits: &[u8],
    vid: VolumeId,
    local: Lsn,
    commit: Lsn,
    hash: CommitHash,
) -> Result<(), Refusal>
    ensures value { code_of result ≡ code (lent (volumes_ok volumes.old && commits_ok commits.now) (prepare_rule (volumes_in volumes.old) (commits_in commits.now) vid (record { local = local.0; commit = commit.0; hash = hash }))) }
    ensures volumes_after { volumes.new ≡ after volume_bytes (λ t. t) volumes.old (lent (volumes_ok volumes.old && commits_ok commits.now) (prepare_rule (volumes_in volumes.old) (commits_in commits.now) vid (record { local = local.0; commit = commit.0; hash = hash }))) }
{
    if !volumes_formed(volumes) {
        return Err(Refusal::TableForm);
    }
    if !commits_formed(commits) {
        return Err(Refusal::TableForm);
    }
    if !both_count(local.0, commit.0) {
        return Err(Refusal::Zero);
    }
    let Ok(i) = find_volume(volumes, vid) else {
        return Err(Refusal::NoVolume);
    };
    let v = volume_at(volumes, i);
    if !none_pending(v) {
        return Err(Refusal::Pending);
    }
    if !is_below(watermark_of(v.sync), local.0) {
        return Err(Refusal::NotAboveWatermark);
    }
    if !is_next(latest_lsn(commits, v.remote), commit.0) {
        return Err(Refusal::NotNext);
    }
    if commit_hash::is_zero(hash) {
        return Err(Refusal::ZeroHash);
    }
    let pending = to_push(local, commit, hash);
    store_volume(volumes, i, v.with_pending_commit(Some(pending)));
    Ok(())
}
