// Save: a commit of pages on a volume's local log, all or nothing over four tables. `save_plan` decides and stores nothing, `save_stored` asks for room and stores,
// `save` is the call. It answers on every input, 20 first.
#![tactic(auto)]

ghost use Rattle.std.specs.Prelude.{◌≡◌, ◌≤◌, true, false, length};
ghost use Rattle.basics.specs.Answers.{refused as refused_with, code};
ghost use Rattle.pageset.specs.Sets.{shown, normal};
ghost use Rattle.rules.specs.Forms.{lsn_form, volume_form};
ghost use Rattle.rules.specs.Lists.{any};
ghost use Rattle.volume.specs.Volumes.{volume_says};
ghost use Rattle.volume.specs.Snapshots.{snapshot_says};
ghost use Rattle.layout.specs.Tables.{volumes_in, volumes_ok, commits_in, commits_ok, checkpoints_ok, index_ok, presence_in, presence_ok};
ghost use Rattle.writecalls.specs.Written.{logs_in};
ghost use Rattle.presence.specs.Pages.{of_segment};
ghost use Rattle.savecalls.specs.Saving.{set_formed, save_ok, arguments_in, save_on, Leaves, planned, plan_says, stored};

use arguments::snapshots::{snapshot_arg, snapshot_ok};
use basics::id::{SegmentId, VolumeId};
use basics::lsn::Lsn;
use basics::page_count::PageCount;
use entries::presence_formed;
use layout::{SET, SNAPSHOT};
use pageset::PageSet;
use saves::{in_use, next_lsn, put_pages, room_for_pages, write_saved};
use setbytes::{set_form, set_read};
use snapshotbytes::snapshot_write;
use viewcalls::{is_latest, snapshot_of};
use volume::snapshot::Snapshot;
use volume::volume::Volume;
use volumes::{find_volume, volume_at, volumes_formed};
use writecalls::{logs_formed, write_room, write_stored};

// ---- what is asked of the lent bytes

// Whether the five tables are formed; where one is not, number 20.
fn tables_formed(
    volumes: &[u8],
    commits: &[u8],
    checkpoints: &[u8],
    index: &[u8],
    presence: &[u8],
) -> bool
    ensures { result ≡ save_ok volumes.now commits.now checkpoints.now index.now presence.now }
{
    if !volumes_formed(volumes) {
        return false;
    }
    if !logs_formed(commits, checkpoints, index) {
        return false;
    }
    presence_formed(presence)
}

// Whether an argument has a set's size and form.
fn set_ok(b: &[u8]) -> bool
    ensures { result ≡ set_formed b.now }
{
    if b.len() != SET {
        return false;
    }
    set_form(b, 0)
}

// 1, 2 or 3 of the arguments and of the place for the answer, or 0.
fn arguments_number(snapshot: &[u8], pages: &[u8], place: usize) -> u32
    ensures { result ≡ code (arguments_in snapshot.now pages.now place) }
{
    let s = snapshot_arg(snapshot);
    if !s.has_lsns() {
        return 1;
    }
    if !s.is_ordered() {
        return 2;
    }
    if !snapshot_ok(snapshot) {
        return 3;
    }
    if !set_ok(pages) {
        return 3;
    }
    if place != SNAPSHOT {
        return 3;
    }
    0
}

// ---- the plan

// The volume and the LSN that a save goes by, under 0; or the number of a refusal.
#[derive(Clone, Copy)]
pub struct Plan {
    pub code: u32,
    pub volume: Volume,
    pub lsn: Lsn,
}

// A refusal.
fn no_plan(code: u32) -> Plan
    ensures { result.code ≡ code }
{
    let none = [0u8; 16];
    let volume = Volume::new(none, none, none, None, None);
    Plan {
        code,
        volume,
        lsn: Lsn(0),
    }
}

// What a save goes by, with nothing stored: 4, 7, 18, 5.
fn save_plan(
    volumes: &[u8],
    commits: &[u8],
    presence: &[u8],
    vid: VolumeId,
    s: Snapshot,
    sid: SegmentId,
) -> Plan
    requires { (volumes_ok volumes.now ≡ true) × (commits_ok commits.now ≡ true) × (presence_ok presence.now ≡ true) × (s.len ≤ 8) }
    ensures { plan_says result ≡ planned (volumes_in volumes.now) (commits_in commits.now) (presence_in presence.now) vid (snapshot_says s) sid }
{
    let Ok(i) = find_volume(volumes, vid) else {
        return no_plan(4);
    };
    let volume = volume_at(volumes, i);
    let local = volume.local;
    if !is_latest(commits, volume, s) {
        return no_plan(7);
    }
    let Ok(lsn) = next_lsn(commits, local) else {
        return no_plan(18);
    };
    if in_use(commits, presence, sid) {
        return no_plan(5);
    }
    Plan {
        code: 0,
        volume,
        lsn,
    }
}

// ---- the store

// A save stored by its plan, where there is room for all of it: 19. No page of its segment is present.
fn save_stored(
    commits: &mut [u8],
    checkpoints: &mut [u8],
    index: &mut [u8],
    presence: &mut [u8],
    p: Plan,
    count: PageCount,
    sid: SegmentId,
    set: PageSet,
    out: &mut [u8],
) -> u32
    requires commits_value { (commits_ok commits.old ≡ true) × (checkpoints_ok checkpoints.old ≡ true) × (index_ok index.old ≡ true) × (presence_ok presence.old ≡ true) }
    requires volume_value { (volume_form (volume_says p.volume) ≡ true) × (lsn_form p.lsn.0 ≡ true) × (normal set ≡ true) }
    requires presence_value { (any (of_segment sid) (presence_in presence.old).rows ≡ false) × (length out.old ≡ 262) }
    ensures { Leaves commits.old checkpoints.old index.old presence.old out.old (stored (logs_in commits.old checkpoints.old index.old) (presence_in presence.old) (volume_says p.volume) p.lsn.0 count.0 sid (shown set)) result commits.new checkpoints.new index.new presence.new out.new }
{
    let v = p.volume;
    let lsn = p.lsn;
    let mut c = [0u8; 722];
    write_saved(&mut c, v, lsn, count, sid, set);
    if !write_room(commits, checkpoints, index, &c) {
        return 19;
    }
    if !room_for_pages(presence, sid, set) {
        return 19;
    }
    write_stored(commits, checkpoints, index, &c);
    put_pages(presence, sid, set);
    snapshot_write(out, 0, snapshot_of(commits, v));
    0
}

// ---- the call

// Pages saved on a volume as a new commit of its local log: 20; 1, 2, 3 of the snapshot and of the set, both in bytes; 3 for a place of another length; 4, 7, 18, 5, 19.
// Under 0 the place holds the snapshot afterwards.
pub fn save(
    volumes: &[u8],
    commits: &mut [u8],
    checkpoints: &mut [u8],
    index: &mut [u8],
    presence: &mut [u8],
    vid: VolumeId,
    snapshot: &[u8],
    count: PageCount,
    sid: SegmentId,
    pages: &[u8],
    out: &mut [u8],
) -> u32
    ensures { Leaves commits.old checkpoints.old index.old presence.old out.old (save_on volumes.now commits.old checkpoints.old index.old presence.old vid snapshot.now count.0 sid pages.now out.old) result commits.new checkpoints.new index.new presence.new out.new }
{
    if !tables_formed(volumes, commits, checkpoints, index, presence) {
        return 20;
    }
    let number = arguments_number(snapshot, pages, out.len());
    if number != 0 {
        return number;
    }
    let p = save_plan(volumes, commits, presence, vid, snapshot_arg(snapshot), sid);
    if p.code != 0 {
        return p.code;
    }
    let set = set_read(pages, 0);
    save_stored(
        commits,
        checkpoints,
        index,
        presence,
        p,
        count,
        sid,
        set,
        out,
    )
}
