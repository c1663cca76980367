// Volumes made from commits that are stored: from a snapshot, and from a commit of a log. A plan decides and stores nothing; then one function stores, all or nothing over four tables. Each
// answers on every input, 20 first.
#![tactic(auto)]

ghost use Rattle.std.specs.Prelude.{◌≡◌, true, [], ◌∷◌, length};
ghost use Rattle.basics.specs.Answers.{code};
ghost use Rattle.rules.specs.Lists.{all, those, is_none};
ghost use Rattle.rules.specs.Forms.{volume_form};
ghost use Rattle.rules.specs.Tables.{latest};
ghost use Rattle.rules.specs.Copies.{copy_free, new_volume, copied};
ghost use Rattle.volume.specs.Volumes.{volume_says};
ghost use Rattle.layout.specs.Tables.{volumes_in, volumes_ok, commits_in, commits_ok, checkpoints_ok, index_ok};
ghost use Rattle.writecalls.specs.Written.{logs_in};
ghost use Rattle.paths.specs.Left.{other_log, is_left, left_says};
ghost use Rattle.copycalls.specs.Making.{ids, up_to, copy_ok, arguments_in, made, snapshot_on, logref_on, Leaves};

use arguments::Reply;
use arguments::snapshots::{snapshot_arg, snapshot_ok};
use basics::id::{LogId, VolumeId};
use basics::lsn::Lsn;
use basics::{commit_hash, id};
use commits::find_commit;
use copies::room::room_for_copies;
use copies::store_copies;
use layout::VOLUME;
use paths::{Left, commits_left, without};
use volume::snapshot::LogRange;
use volume::volume::Volume;
use volumebytes::put_out;
use volumes::{put_volume, room_for_volume, vid_free, volumes_formed};
use writecalls::logs_formed;

// ---- what is asked of the lent bytes

// Whether the four tables are formed; where one is not, number 20.
fn tables_formed(volumes: &[u8], commits: &[u8], checkpoints: &[u8], index: &[u8]) -> bool
    ensures { result ≡ copy_ok volumes.now commits.now checkpoints.now index.now }
{
    if !volumes_formed(volumes) {
        return false;
    }
    logs_formed(commits, checkpoints, index)
}

// 1, 2 or 3 of the snapshot and of the place for the answer, or 0.
fn arguments_number(snapshot: &[u8], place: usize) -> u32
    ensures { result ≡ code (arguments_in snapshot.now place) }
{
    let s = snapshot_arg(snapshot);
    if !s.has_lsns() {
        return 1;
    }
    if !s.is_ordered() {
        return 2;
    }
    if !snapshot_ok(snapshot) {
        return 3;
    }
    if place != VOLUME {
        return 3;
    }
    0
}

// ---- 5: identifiers in use

// Whether a log has no commit.
fn log_free(commits: &[u8], log: LogId) -> bool
    requires { commits_ok commits.now ≡ true }
    ensures { result ≡ is_none (latest (commits_in commits.now) log) }
{
    match commits::latest(commits, log) {
        Some(_) => false,
        None => true,
    }
}

// Whether the three identifiers are free, and the logs two.
fn copy_free(volumes: &[u8], commits: &[u8], vid: VolumeId, local: LogId, remote: LogId) -> bool
    requires { (volumes_ok volumes.now ≡ true) × (commits_ok commits.now ≡ true) }
    ensures { result ≡ copy_free (volumes_in volumes.now) (commits_in commits.now) (ids vid local remote) }
{
    if !vid_free(volumes, vid) {
        return false;
    }
    if !log_free(commits, local) {
        return false;
    }
    if !log_free(commits, remote) {
        return false;
    }
    !id::same(local, remote)
}

// ---- the new volume

// The new volume, without sync point.
fn new_volume(vid: VolumeId, local: LogId, remote: LogId) -> Volume
    ensures { (volume_says result ≡ new_volume (ids vid local remote)) × (volume_form (volume_says result) ≡ true) }
{
    Volume::new(vid, local, remote, None, None)
}

// ---- a path copied

// The number that a new volume with the commits of a path answers, with nothing stored: 5, 19, or 0.
fn copy_plan(
    volumes: &[u8],
    commits: &[u8],
    checkpoints: &[u8],
    index: &[u8],
    left: Left,
    vid: VolumeId,
    local: LogId,
    remote: LogId,
) -> u32
    requires volumes_value { (volumes_ok volumes.now ≡ true) × (commits_ok commits.now ≡ true) × (checkpoints_ok checkpoints.now ≡ true) × (index_ok index.now ≡ true) }
    requires is_left { is_left left }
    ensures { result ≡ code (copied (volumes_in volumes.now) (logs_in commits.now checkpoints.now index.now) (left_says left) (ids vid local remote)) }
{
    if !copy_free(volumes, commits, vid, local, remote) {
        return 5;
    }
    let v = new_volume(vid, local, remote);
    if !room_for_volume(volumes, v) {
        return 19;
    }
    let n = commits_left(commits, left);
    if !room_for_copies(commits, checkpoints, index, left, n, local) {
        return 19;
    }
    0
}

// A new volume with the commits of a path in its local log, which no range of the path names: 5, 19. Under 0 the place holds the volume.
fn copy_path(
    volumes: &mut [u8],
    commits: &mut [u8],
    checkpoints: &mut [u8],
    index: &mut [u8],
    left: Left,
    vid: VolumeId,
    local: LogId,
    remote: LogId,
    out: &mut [u8],
) -> Reply
    requires volumes_value { (volumes_ok volumes.old ≡ true) × (commits_ok commits.old ≡ true) × (checkpoints_ok checkpoints.old ≡ true) × (index_ok index.old ≡ true) }
    requires is_left { is_left left × (all (other_log local) (left_says left) ≡ true) × (length out.old ≡ 117) }
    ensures { Leaves volumes.old commits.old checkpoints.old index.old out.old (made (copied (volumes_in volumes.old) (logs_in commits.old checkpoints.old index.old) (left_says left) (ids vid local remote))) result volumes.new commits.new checkpoints.new index.new out.new }
{
    let number = copy_plan(
        volumes,
        commits,
        checkpoints,
        index,
        left,
        vid,
        local,
        remote,
    );
    if number != 0 {
        return Reply {
            code: number,
            found: 0,
        };
    }
    let v = new_volume(vid, local, remote);
    let n = commits_left(commits, left);
    put_volume(volumes, v);
    store_copies(commits, checkpoints, index, left, n, local);
    put_out(out, v);
    Reply { code: 0, found: 1 }
}

// ---- the calls

// A log from LSN 1 to one, as a path without the ranges of the new local log.
fn log_path(log: LogId, lsn: u64, local: LogId) -> Left
    ensures { is_left result × (left_says result ≡ those (other_log local) (up_to log lsn ∷ [])) }
{
    let range = LogRange {
        log: log,
        start: Lsn(1),
        end: Lsn(lsn),
    };
    let path = [range; 8];
    without(path, 1, local)
}

// A new volume whose local log has copies of a snapshot's commits: 20; 1, 2, 3 of the snapshot in bytes; 3 for a place of another length; 5, 19. Under 0 the place holds the volume.
pub fn from_snapshot(
    volumes: &mut [u8],
    commits: &mut [u8],
    checkpoints: &mut [u8],
    index: &mut [u8],
    snapshot: &[u8],
    vid: VolumeId,
    local: LogId,
    remote: LogId,
    out: &mut [u8],
) -> Reply
    ensures { Leaves volumes.old commits.old checkpoints.old index.old out.old (snapshot_on volumes.old commits.old checkpoints.old index.old snapshot.now (ids vid local remote) (length out.old)) result volumes.new commits.new checkpoints.new index.new out.new }
{
    if !tables_formed(volumes, commits, checkpoints, index) {
        return Reply { code: 20, found: 0 };
    }
    let number = arguments_number(snapshot, out.len());
    if number != 0 {
        return Reply {
            code: number,
            found: 0,
        };
    }
    let s = snapshot_arg(snapshot);
    let path = s.path;
    let left = without(path, s.len, local);
    copy_path(
        volumes,
        commits,
        checkpoints,
        index,
        left,
        vid,
        local,
        remote,
        out,
    )
}

// A new volume whose local log has copies of a log's commits up to one that is stored; nothing where that is not stored: 20, 1, 3 for a place of another length, 5, 19. Under 0 the place
// holds the volume, where there is one.
pub fn from_logref(
    volumes: &mut [u8],
    commits: &mut [u8],
    checkpoints: &mut [u8],
    index: &mut [u8],
    log: LogId,
    lsn: u64,
    vid: VolumeId,
    local: LogId,
    remote: LogId,
    out: &mut [u8],
) -> Reply
    ensures { Leaves volumes.old commits.old checkpoints.old index.old out.old (logref_on volumes.old commits.old checkpoints.old index.old log lsn (ids vid local remote) (length out.old)) result volumes.new commits.new checkpoints.new index.new out.new }
{
    if !tables_formed(volumes, commits, checkpoints, index) {
        return Reply { code: 20, found: 0 };
    }
    if lsn == 0 {
        return Reply { code: 1, found: 0 };
    }
    if out.len() != VOLUME {
        return Reply { code: 3, found: 0 };
    }
    let Some(_) = find_commit(commits, log, lsn) else {
        return Reply { code: 0, found: 0 };
    };
    let left = log_path(log, lsn, local);
    copy_path(
        volumes,
        commits,
        checkpoints,
        index,
        left,
        vid,
        local,
        remote,
        out,
    )
}
