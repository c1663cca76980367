// The calls that end a push: success stores the pushed commit and moves the volume's sync point to it, recover finds out what became of a push. A plan decides and
// stores nothing; then one function stores. Each answers on every input, 20 first.
#![tactic(auto)]

ghost use Rattle.std.specs.Prelude.{◌≡◌, ℕ, ◌+◌, ◌*◌, ◌<◌, true, ◌&&◌, ◌==◌};
ghost use Rattle.std.proofs.Math.Option.{some};
ghost use Rattle.octets.specs.Bytes.{part};
ghost use Rattle.basics.specs.Answers.{code, done};
ghost use Rattle.basics.specs.Orders.{bytes};
ghost use Rattle.rules.specs.Records.{Volume as RulesVolume, Pending, volume_key};
ghost use Rattle.rules.specs.Tables.{Table, fits, store, get_commit};
ghost use Rattle.rules.specs.Write.{Logs, write};
ghost use Rattle.rules.specs.Push.{is_hash, same_there, pushed_volume, recover as recover_rule};
ghost use Rattle.table.specs.Table.{count_of};
ghost use Rattle.volume.specs.Volumes.{volume_says};
ghost use Rattle.layout.specs.Records.{volume_bytes, commit_bytes, checkpoint_bytes, entry_bytes};
ghost use Rattle.layout.specs.Tables.{volumes_in, volumes_ok, commits_in, commits_ok, checkpoints_ok, index_ok, laid_over};
ghost use Rattle.layout.specs.Lent.{lent, after};
ghost use Rattle.writecalls.specs.Written.{IsCommit, commit_in, logs_in};
ghost use Rattle.pushcalls.specs.Pushes.{push_ok, commit_asked, success_in, success_found, number_of, Stands, Ready, PushedAt, DroppedAt, Planned, Recovers, RecoversFound};

use basics::commit_hash::CommitHash;
use basics::id::VolumeId;
use commitbytes::{commit_form, commit_lsns_ok, fields};
use commits::{find_commit, hash_is};
use layout::COMMIT;
use volume::volume::{SyncPoint, Volume};
use volumes::{find_volume, store_volume, volume_at, volumes_formed};
use writecalls::{logs_formed, write_room, write_stored};

// What success does: it leaves all as it is and answers a number, or pushes the volume at a place.
#[derive(Clone, Copy)]
pub enum Plan {
    Left(u32),
    Push(usize),
}

// What recover does: it leaves all as it is and answers a number, drops the pending commit of the volume at a place and answers a number, or pushes that volume with
// the commit that is stored at a place.
#[derive(Clone, Copy)]
pub enum Recovery {
    Left(u32),
    Drop { at: usize, number: u32 },
    Push { at: usize, commit: usize },
}

// ---- checks

// Whether the four lent tables are formed (20).
fn push_formed(volumes: &[u8], commits: &[u8], checkpoints: &[u8], index: &[u8]) -> bool
    ensures { result ≡ push_ok volumes.now commits.now checkpoints.now index.now }
{
    if !volumes_formed(volumes) {
        return false;
    }
    logs_formed(commits, checkpoints, index)
}

// The number that a commit given as bytes earns by itself: 3 for another number of bytes, 1, 3, or 0.
fn commit_number(c: &[u8]) -> u32
    ensures { result ≡ code (commit_asked c.now) }
{
    if c.len() != COMMIT {
        return 3;
    }
    if !commit_lsns_ok(c, 0) {
        return 1;
    }
    if !commit_form(c, 0) {
        return 3;
    }
    0
}

// Whether a commit has the pending one's LSN and hash (14).
fn is_pending(c: &[u8], lsn: u64, hash: CommitHash) -> bool
    requires { IsCommit c.now }
    ensures { result ≡ ((commit_in c.now).lsn == lsn && is_hash (commit_in c.now).hash hash) }
{
    let own = fields::commit_lsn(c, 0);
    if own.0 != lsn {
        return false;
    }
    fields::commit_hash_is(c, 0, hash)
}

// Whether no commit is stored at a commit's log and LSN, or one with that hash (15).
fn same_there(commits: &[u8], c: &[u8], hash: CommitHash) -> bool
    requires { (commits_ok commits.now ≡ true) × IsCommit c.now }
    ensures { result ≡ same_there (get_commit (commits_in commits.now) (commit_in c.now).log (commit_in c.now).lsn) hash }
{
    let log = fields::commit_log(c, 0);
    let lsn = fields::commit_lsn(c, 0);
    let Some(i) = find_commit(commits, log, lsn.0) else {
        return true;
    };
    hash_is(commits, i, hash)
}

// ---- what is stored

// The volume after the push of its pending commit: that is its sync point, and nothing is pending.
fn pushed(v: Volume) -> Volume
    ensures { (p : Pending) → (volume_says v).pending ≡ some p → volume_says result ≡ pushed_volume (volume_says v) p }
{
    let Some(pending) = v.pending else {
        return v;
    };
    let point = SyncPoint {
        remote: pending.commit,
        watermark: Some(pending.local),
    };
    let moved = v.with_sync(Some(point));
    moved.with_pending_commit(None)
}

// The bytes of the commit at a place.
fn commit_copy(t: &[u8], i: usize) -> [u8; 722]
    requires { (commits_ok t.now ≡ true) × (i < count_of t.now) }
    ensures { result ≡ part (2 + i * 722) 722 t.now }
{
    let mut row = [0u8; 722];
    octets::load_all(t, commits::row(t, i), &mut row);
    row
}

// The volume at a place without its pending commit.
fn drop_stored(volumes: &mut [u8], i: usize)
    requires { (volumes_ok volumes.old ≡ true) × ((v : RulesVolume) × Stands volumes.old i v) }
    ensures { DroppedAt volumes.old i (λ vs. volumes.new ≡ laid_over volume_bytes vs volumes.old) }
{
    let v = volume_at(volumes, i);
    store_volume(volumes, i, v.with_pending_commit(None));
}

// The volume at a place pushed, and the commit written; there is room for it.
fn push_stored(
    volumes: &mut [u8],
    commits: &mut [u8],
    checkpoints: &mut [u8],
    index: &mut [u8],
    i: usize,
    c: &[u8],
)
    requires { Ready volumes.old commits.old checkpoints.old index.old c.now i }
    ensures pushed_at { PushedAt volumes.old i (λ vs. volumes.new ≡ laid_over volume_bytes vs volumes.old) }
    ensures commits_after { commits.new ≡ laid_over commit_bytes (write (logs_in commits.old checkpoints.old index.old) (commit_in c.now)).commits commits.old }
    ensures checkpoints_after { checkpoints.new ≡ laid_over checkpoint_bytes (write (logs_in commits.old checkpoints.old index.old) (commit_in c.now)).checkpoints checkpoints.old }
    ensures index_after { index.new ≡ laid_over entry_bytes (write (logs_in commits.old checkpoints.old index.old) (commit_in c.now)).index index.old }
{
    let v = volume_at(volumes, i);
    store_volume(volumes, i, pushed(v));
    write_stored(commits, checkpoints, index, c);
}

// ---- success

// The number that success answers on a volume that was found, with nothing stored: 10, 14, 15, 19, or 0.
fn push_number(commits: &[u8], checkpoints: &[u8], index: &[u8], v: Volume, c: &[u8]) -> u32
    requires commits_value { (commits_ok commits.now ≡ true) × (checkpoints_ok checkpoints.now ≡ true) × (index_ok index.now ≡ true) }
    requires commit { IsCommit c.now }
    ensures { (vs : Table RulesVolume) → ((w : RulesVolume) → w.vid ≡ v.vid → fits (store volume_key bytes w vs) ≡ true) → result ≡ code (success_found vs (logs_in commits.now checkpoints.now index.now) (volume_says v) (commit_in c.now)) }
{
    let Some(pending) = v.pending else {
        return 10;
    };
    if !is_pending(c, pending.commit.0, pending.hash) {
        return 14;
    }
    if !same_there(commits, c, pending.hash) {
        return 15;
    }
    if !write_room(commits, checkpoints, index, c) {
        return 19;
    }
    0
}

// What success does with a volume and a commit that is given as bytes: 3 for another number of bytes, 1, 3, 4, 10, 14, 15, 19, or the push.
fn success_plan(
    volumes: &[u8],
    commits: &[u8],
    checkpoints: &[u8],
    index: &[u8],
    vid: VolumeId,
    c: &[u8],
) -> Plan
    requires { push_ok volumes.now commits.now checkpoints.now index.now ≡ true }
    ensures { Planned volumes.now commits.now checkpoints.now index.now c.now (success_in (volumes_in volumes.now) (logs_in commits.now checkpoints.now index.now) vid c.now) result }
{
    let number = commit_number(c);
    if number != 0 {
        return Plan::Left(number);
    }
    let Ok(i) = find_volume(volumes, vid) else {
        return Plan::Left(4);
    };
    let v = volume_at(volumes, i);
    let refusal = push_number(commits, checkpoints, index, v, c);
    if refusal != 0 {
        return Plan::Left(refusal);
    }
    Plan::Push(i)
}

// The pushed commit written, given as its bytes, and the volume's sync point the pending one: 20, 3 for another number of bytes, 1, 3, 4, 10, 14, 15, 19.
pub fn success(
    volumes: &mut [u8],
    commits: &mut [u8],
    checkpoints: &mut [u8],
    index: &mut [u8],
    vid: VolumeId,
    c: &[u8],
) -> u32
    ensures value { result ≡ code (lent (push_ok volumes.old commits.old checkpoints.old index.old) (success_in (volumes_in volumes.old) (logs_in commits.old checkpoints.old index.old) vid c.now)) }
    ensures volumes_after { volumes.new ≡ after volume_bytes (λ (r : Table RulesVolume × Logs). r.0) volumes.old (lent (push_ok volumes.old commits.old checkpoints.old index.old) (success_in (volumes_in volumes.old) (logs_in commits.old checkpoints.old index.old) vid c.now)) }
    ensures commits_after { commits.new ≡ after commit_bytes (λ (r : Table RulesVolume × Logs). r.1.commits) commits.old (lent (push_ok volumes.old commits.old checkpoints.old index.old) (success_in (volumes_in volumes.old) (logs_in commits.old checkpoints.old index.old) vid c.now)) }
    ensures checkpoints_after { checkpoints.new ≡ after checkpoint_bytes (λ (r : Table RulesVolume × Logs). r.1.checkpoints) checkpoints.old (lent (push_ok volumes.old commits.old checkpoints.old index.old) (success_in (volumes_in volumes.old) (logs_in commits.old checkpoints.old index.old) vid c.now)) }
    ensures index_after { index.new ≡ after entry_bytes (λ (r : Table RulesVolume × Logs). r.1.index) index.old (lent (push_ok volumes.old commits.old checkpoints.old index.old) (success_in (volumes_in volumes.old) (logs_in commits.old checkpoints.old index.old) vid c.now)) }
{
    if !push_formed(volumes, commits, checkpoints, index) {
        return 20;
    }
    match success_plan(volumes, commits, checkpoints, index, vid, c) {
        Plan::Left(n) => n,
        Plan::Push(i) => {
            push_stored(volumes, commits, checkpoints, index, i, c);
            0
        }
    }
}

// ---- recover

// What recover does with a volume v that stands at a place: nothing where nothing is pending; the push where the remote holds the commit with the pending hash (19); else
// the pending commit is dropped, with 8 where a commit is stored there.
fn recover_found(commits: &[u8], checkpoints: &[u8], index: &[u8], at: usize, v: Volume) -> Recovery
    requires { (commits_ok commits.now ≡ true) × (checkpoints_ok checkpoints.now ≡ true) × (index_ok index.now ≡ true) }
    ensures { RecoversFound commits.now checkpoints.now index.now at (volume_says v) result }
{
    let Some(pending) = v.pending else {
        return Recovery::Left(0);
    };
    let Some(j) = find_commit(commits, v.remote, pending.commit.0) else {
        return Recovery::Drop { at, number: 0 };
    };
    if !hash_is(commits, j, pending.hash) {
        return Recovery::Drop { at, number: 8 };
    }
    let row = commit_copy(commits, j);
    if !write_room(commits, checkpoints, index, &row) {
        return Recovery::Left(19);
    }
    Recovery::Push { at, commit: j }
}

// What recover does with a volume: 4, or what it does with the one that is found.
fn recover_plan(
    volumes: &[u8],
    commits: &[u8],
    checkpoints: &[u8],
    index: &[u8],
    vid: VolumeId,
) -> Recovery
    requires { push_ok volumes.now commits.now checkpoints.now index.now ≡ true }
    ensures { Recovers volumes.now commits.now checkpoints.now index.now (recover_rule (volumes_in volumes.now) (logs_in commits.now checkpoints.now index.now) vid) result }
{
    let Ok(i) = find_volume(volumes, vid) else {
        return Recovery::Left(4);
    };
    let v = volume_at(volumes, i);
    recover_found(commits, checkpoints, index, i, v)
}

// What became of a push found out: nothing pending, done; the pending commit stored with its hash, success; stored with another hash or none, dropped and 8; not stored,
// dropped and done: 20, 4, 19, 8.
pub fn recover(
    volumes: &mut [u8],
    commits: &mut [u8],
    checkpoints: &mut [u8],
    index: &mut [u8],
    vid: VolumeId,
) -> u32
    ensures value { result ≡ number_of (lent (push_ok volumes.old commits.old checkpoints.old index.old) (done (recover_rule (volumes_in volumes.old) (logs_in commits.old checkpoints.old index.old) vid))) }
    ensures volumes_after { volumes.new ≡ after volume_bytes (λ (r : ℕ × Table RulesVolume × Logs). r.1) volumes.old (lent (push_ok volumes.old commits.old checkpoints.old index.old) (done (recover_rule (volumes_in volumes.old) (logs_in commits.old checkpoints.old index.old) vid))) }
    ensures commits_after { commits.new ≡ after commit_bytes (λ (r : ℕ × Table RulesVolume × Logs). r.2.commits) commits.old (lent (push_ok volumes.old commits.old checkpoints.old index.old) (done (recover_rule (volumes_in volumes.old) (logs_in commits.old checkpoints.old index.old) vid))) }
    ensures checkpoints_after { checkpoints.new ≡ after checkpoint_bytes (λ (r : ℕ × Table RulesVolume × Logs). r.2.checkpoints) checkpoints.old (lent (push_ok volumes.old commits.old checkpoints.old index.old) (done (recover_rule (volumes_in volumes.old) (logs_in commits.old checkpoints.old index.old) vid))) }
    ensures index_after { index.new ≡ after entry_bytes (λ (r : ℕ × Table RulesVolume × Logs). r.2.index) index.old (lent (push_ok volumes.old commits.old checkpoints.old index.old) (done (recover_rule (volumes_in volumes.old) (logs_in commits.old checkpoints.old index.old) vid))) }
{
    if !push_formed(volumes, commits, checkpoints, index) {
        return 20;
    }
    match recover_plan(volumes, commits, checkpoints, index, vid) {
        Recovery::Left(n) => n,
        Recovery::Drop { at, number } => {
            drop_stored(volumes, at);
            number
        }
        Recovery::Push { at, commit } => {
            let row = commit_copy(commits, commit);
            push_stored(volumes, commits, checkpoints, index, at, &row);
            0
        }
    }
}
