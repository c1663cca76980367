// Open: an asked volume that is stored is answered, else a new one is made, with spares for what was not asked. A plan decides and stores nothing. It answers on every input, 20 first.
#![tactic(auto)]

ghost use Rattle.std.specs.Prelude.{◌≡◌, true, ◌&&◌, ◌||◌};
ghost use Rattle.basics.specs.Answers.{code};
ghost use Rattle.rules.specs.Lists.{any};
ghost use Rattle.rules.specs.Records.{Volume as RulesVolume};
ghost use Rattle.rules.specs.Forms.{volume_form};
ghost use Rattle.rules.specs.Tables.{Table, same_id, latest_lsn};
ghost use Rattle.rules.specs.Open.{agrees_on, or_spare, log_named, vid_free, log_free, sync_at, asked_volume, opened_new, opened};
ghost use Rattle.volume.specs.Volumes.{sync_says, volume_says};
ghost use Rattle.layout.specs.Records.{volume_bytes};
ghost use Rattle.layout.specs.Tables.{volumes_in, volumes_ok, commits_in, commits_ok};
ghost use Rattle.layout.specs.Lent.{lent, after};
ghost use Rattle.opencalls.specs.Opens.{asked_says, asked, spares, open_in, out_after, new_volume, all_free, AskedAt, Planned};

use basics::id::LogId;
use basics::lsn::Lsn;
use commits::{commits_formed, lsn_at};
use layout::VOLUME;
use octets::same_id;
use volume::volume::{SyncPoint, Volume};
use volumebytes::put_out;
use volumes::{find_volume, put_volume, room_for_volume, volume_at, volumes_formed};

// An identifier as open takes it: asked, and the spare that stands in where it was not.
#[derive(Clone, Copy)]
pub struct Wanted {
    pub asked: bool,
    pub id: [u8; 16],
    pub spare: [u8; 16],
}

// What open does: it refuses, answers the stored volume at a place, or makes the new one.
#[derive(Clone, Copy)]
pub enum Opening {
    Refused(u32),
    Stored(usize),
    New,
}

// ---- what stands in a new volume

// The identifier that was asked, or its spare.
fn chosen(w: Wanted) -> [u8; 16]
    ensures { result ≡ or_spare (asked_says w) w.spare }
{
    if w.asked {
        return w.id;
    }
    w.spare
}

// The sync point of a new volume: the remote log's latest LSN without watermark, or missing.
fn sync_at(commits: &[u8], log: LogId) -> Option<SyncPoint>
    requires { commits_ok commits.now ≡ true }
    ensures { sync_says result ≡ sync_at (latest_lsn (commits_in commits.now) log) }
{
    let Some(i) = commits::latest(commits, log) else {
        return None;
    };
    let point = SyncPoint {
        remote: Lsn(lsn_at(commits, i)),
        watermark: None,
    };
    Some(point)
}

// The new volume.
fn new_volume(commits: &[u8], vid: Wanted, local: Wanted, remote: Wanted) -> Volume
    requires { commits_ok commits.now ≡ true }
    ensures { (volume_says result ≡ new_volume (commits_in commits.now) (asked vid local remote) (spares vid local remote)) × (volume_form (volume_says result) ≡ true) }
{
    let id = chosen(vid);
    let here = chosen(local);
    let there = chosen(remote);
    let sync = sync_at(commits, there);
    Volume::new(id, here, there, sync, None)
}

// ---- 5: identifiers in use

// Whether a volume names a log.
fn names(v: Volume, log: LogId) -> bool
    ensures { result ≡ (same_id log (volume_says v).local || same_id log (volume_says v).remote) }
{
    let local = v.local;
    let remote = v.remote;
    if same_id(log, local) {
        return true;
    }
    same_id(log, remote)
}

// Whether a stored volume names a log.
fn any_names(volumes: &[u8], log: LogId) -> bool
    requires { volumes_ok volumes.now ≡ true }
    ensures { result ≡ any (λ v. same_id log v.local || same_id log v.remote) (volumes_in volumes.now).rows }
{
    let n = table::count(volumes);
    for i in 0..n {
        let v = volume_at(volumes, i);
        if names(v, log) {
            return true;
        }
    }
    false
}

// Whether a volume or a commit names a log.
fn log_named(volumes: &[u8], commits: &[u8], log: LogId) -> bool
    requires { (volumes_ok volumes.now ≡ true) × (commits_ok commits.now ≡ true) }
    ensures { result ≡ log_named (volumes_in volumes.now) (commits_in commits.now) log }
{
    if any_names(volumes, log) {
        return true;
    }
    match commits::latest(commits, log) {
        Some(_) => true,
        None => false,
    }
}

// Whether the vid was asked, or its spare is not one of a stored volume.
fn vid_free(volumes: &[u8], w: Wanted) -> bool
    requires { volumes_ok volumes.now ≡ true }
    ensures { result ≡ vid_free (volumes_in volumes.now) (asked_says w) w.spare }
{
    if w.asked {
        return true;
    }
    let spare = w.spare;
    volumes::vid_free(volumes, spare)
}

// Whether a log was asked, or its spare is one that no volume or commit names, and not the other log.
fn log_free(volumes: &[u8], commits: &[u8], w: Wanted, other: LogId) -> bool
    requires { (volumes_ok volumes.now ≡ true) × (commits_ok commits.now ≡ true) }
    ensures { result ≡ log_free (volumes_in volumes.now) (commits_in commits.now) (asked_says w) w.spare other }
{
    if w.asked {
        return true;
    }
    let spare = w.spare;
    if log_named(volumes, commits, spare) {
        return false;
    }
    !same_id(spare, other)
}

// Whether all that stands in is free (5).
fn all_free(volumes: &[u8], commits: &[u8], vid: Wanted, local: Wanted, remote: Wanted) -> bool
    requires { (volumes_ok volumes.now ≡ true) × (commits_ok commits.now ≡ true) }
    ensures { result ≡ all_free (volumes_in volumes.now) (commits_in commits.now) (asked vid local remote) (spares vid local remote) }
{
    let here = chosen(local);
    let there = chosen(remote);
    if !vid_free(volumes, vid) {
        return false;
    }
    if !log_free(volumes, commits, local, there) {
        return false;
    }
    log_free(volumes, commits, remote, here)
}

// ---- open

// What open does where no stored volume was asked: 5, 19, or the new volume.
fn new_plan(volumes: &[u8], commits: &[u8], vid: Wanted, local: Wanted, remote: Wanted) -> Opening
    requires { (volumes_ok volumes.now ≡ true) × (commits_ok commits.now ≡ true) }
    ensures { Planned volumes.now (commits_in commits.now) (asked vid local remote) (spares vid local remote) (opened_new (volumes_in volumes.now) (commits_in commits.now) (asked vid local remote) (spares vid local remote)) result }
{
    if !all_free(volumes, commits, vid, local, remote) {
        return Opening::Refused(5);
    }
    let v = new_volume(commits, vid, local, remote);
    if !room_for_volume(volumes, v) {
        return Opening::Refused(19);
    }
    Opening::New
}

// Whether no remote was asked, or it is the volume's.
fn agrees(remote: Wanted, v: Volume) -> bool
    ensures { result ≡ agrees_on (asked_says remote) (volume_says v) }
{
    if !remote.asked {
        return true;
    }
    let id = remote.id;
    let own = v.remote;
    same_id(id, own)
}

// Where the asked volume stands; in a gap where none was asked.
fn asked_spot(volumes: &[u8], w: Wanted) -> Result<usize, usize>
    requires { volumes_ok volumes.now ≡ true }
    ensures { AskedAt volumes.now (asked_volume (volumes_in volumes.now) (asked_says w)) result }
{
    if !w.asked {
        return Err(0);
    }
    let id = w.id;
    find_volume(volumes, id)
}

// What open does: 6 or the stored volume, else 5, 19, or the new volume.
fn open_plan(volumes: &[u8], commits: &[u8], vid: Wanted, local: Wanted, remote: Wanted) -> Opening
    requires { (volumes_ok volumes.now ≡ true) × (commits_ok commits.now ≡ true) }
    ensures { Planned volumes.now (commits_in commits.now) (asked vid local remote) (spares vid local remote) (opened (volumes_in volumes.now) (commits_in commits.now) (asked vid local remote) (spares vid local remote) (asked_volume (volumes_in volumes.now) (asked_says vid))) result }
{
    let Ok(i) = asked_spot(volumes, vid) else {
        return new_plan(volumes, commits, vid, local, remote);
    };
    let v = volume_at(volumes, i);
    if !agrees(remote, v) {
        return Opening::Refused(6);
    }
    Opening::Stored(i)
}

// A volume opened, to `out`: the asked one that is stored, or a new one: 20, 3 for another number of lent bytes, 6, 5, 19.
pub fn open(
    volumes: &mut [u8],
    commits: &[u8],
    vid: Wanted,
    local: Wanted,
    remote: Wanted,
    out: &mut [u8],
) -> u32
    ensures value { result ≡ code (lent (volumes_ok volumes.old && commits_ok commits.now) (open_in (volumes_in volumes.old) (commits_in commits.now) (asked vid local remote) (spares vid local remote) out.old)) }
    ensures volumes_after { volumes.new ≡ after volume_bytes (λ (r : RulesVolume × Table RulesVolume). r.1) volumes.old (lent (volumes_ok volumes.old && commits_ok commits.now) (open_in (volumes_in volumes.old) (commits_in commits.now) (asked vid local remote) (spares vid local remote) out.old)) }
    ensures out_after { out.new ≡ out_after volume_bytes (λ (r : RulesVolume × Table RulesVolume). r.0) out.old (lent (volumes_ok volumes.old && commits_ok commits.now) (open_in (volumes_in volumes.old) (commits_in commits.now) (asked vid local remote) (spares vid local remote) out.old)) }
{
    if !volumes_formed(volumes) {
        return 20;
    }
    if !commits_formed(commits) {
        return 20;
    }
    if out.len() != VOLUME {
        return 3;
    }
    match open_plan(volumes, commits, vid, local, remote) {
        Opening::Refused(n) => n,
        Opening::Stored(i) => {
            put_out(out, volume_at(volumes, i));
            0
        }
        Opening::New => {
            let v = new_volume(commits, vid, local, remote);
            put_volume(volumes, v);
            put_out(out, v);
            0
        }
    }
}
