// The six calls of a call list, each on the bytes that it is lent and the values of its line.
ghost use Rattle.std.specs.Prelude.{◌≡◌, ◌≤◌, true, length};
ghost use Rattle.std.proofs.Math.Option.{none};
ghost use Rattle.basics.specs.Answers.{code};
ghost use Rattle.basics.specs.Refusals.{code_of};
ghost use Rattle.rules.specs.Records.{Volume};
ghost use Rattle.rules.specs.Tables.{Table};
ghost use Rattle.layout.specs.Records.{volume_bytes};
ghost use Rattle.layout.specs.Lent.{after};
ghost use Rattle.callline.specs.Values.{pages_of};
ghost use Rattle.callline.specs.Says.{is_done};
ghost use Rattle.callvalues.specs.Slots.{slots_after};
ghost use Rattle.callvalues.specs.Values.{id_of};
ghost use Rattle.callstep.specs.Testers.{Tester};
ghost use Rattle.callstep.specs.Steps.{open_on, snap_on, snap_head, find_on, found_head, pull_on};
ghost use Rattle.callstep.specs.Says.{printed_says, Saves, Fetches};

use super::Printed;
use basics::lsn::Lsn;
use basics::page_count::PageCount;
use basics::pageidx::PageIdx;
use basics::refusal::Refusal;
use callpages::page_set;
use calltext::Head;
use callvalues::made::id_of;
use callvalues::{made, slots};
use opencalls::Wanted;

// A code, and no commit.
pub fn coded(code: u32) -> Printed
    ensures { printed_says result ≡ (code, none) }
{
    Printed {
        code,
        head: Head::Nothing,
    }
}

// An identifier that is asked.
fn asked(last: u8) -> Wanted
    ensures { result ≡ record { asked = true; id = id_of last; spare = id_of last } }
{
    let id = id_of(last);
    Wanted {
        asked: true,
        id,
        spare: id,
    }
}

// op=open
pub fn open(volumes: &mut [u8], commits: &[u8], vid: u8, local: u8, remote: u8) -> u32
    ensures value { result ≡ code (open_on volumes.old commits.now vid local remote) }
    ensures volumes_after { volumes.new ≡ after volume_bytes (λ (x : Volume × Table Volume). x.1) volumes.old (open_on volumes.old commits.now vid local remote) }
{
    let mut out = [0u8; 117];
    opencalls::open(
        volumes,
        commits,
        asked(vid),
        asked(local),
        asked(remote),
        &mut out,
    )
}

// op=snap
pub fn snap(volumes: &[u8], commits: &[u8], slots: &mut [u8], vid: u8, slot: u8) -> Printed
    requires { (slot ≤ 3) × (length slots.old ≡ 1052) }
    ensures result_value { printed_says result ≡ (code (snap_on volumes.now commits.now vid), snap_head (snap_on volumes.now commits.now vid)) }
    ensures slots_after { slots.new ≡ slots_after slot slots.old (snap_on volumes.now commits.now vid) }
{
    match viewcalls::snapshot(volumes, commits, id_of(vid)) {
        Err(refusal) => coded(refusal.number()),
        Ok(s) => {
            slots::put(slots, slot, s);
            Printed {
                code: 0,
                head: made::short_head(s.head()),
            }
        }
    }
}

// op=save
pub fn save(
    volumes: &[u8],
    commits: &mut [u8],
    checkpoints: &mut [u8],
    index: &mut [u8],
    presence: &mut [u8],
    slots: &[u8],
    vid: u8,
    slot: u8,
    count: u32,
    sid: u8,
    text: &[u8],
) -> Printed
    requires { (slot ≤ 3) × (length slots.now ≡ 1052) × (is_done (pages_of text.now) ≡ true) }
    ensures { Saves (record { volumes = volumes.now; commits = commits.old; checkpoints = checkpoints.old; index = index.old; presence = presence.old; slots = slots.now }) vid slot count sid text.now result (record { volumes = volumes.now; commits = commits.new; checkpoints = checkpoints.new; index = index.new; presence = presence.new; slots = slots.now }) }
{
    let pages = page_set(text);
    if !slots::is_set(slots, slot) {
        return coded(24);
    }
    let number = pages.code;
    if number != 0 {
        return coded(number);
    }
    let set = pages.set;
    let bytes = made::set_bytes(set);
    let snapshot = slots::held(slots, slot);
    let mut out = [0u8; 262];
    let code = savecalls::save(
        volumes,
        commits,
        checkpoints,
        index,
        presence,
        id_of(vid),
        &snapshot,
        PageCount(count),
        id_of(sid),
        &bytes,
        &mut out,
    );
    if code != 0 {
        return coded(code);
    }
    Printed {
        code: 0,
        head: made::snapshot_head(&out),
    }
}

// op=find
pub fn find(commits: &[u8], index: &[u8], slots: &[u8], slot: u8, page: u32) -> Printed
    requires { (slot ≤ 3) × (length slots.now ≡ 1052) }
    ensures { printed_says result ≡ (code (find_on commits.now index.now slots.now slot page), found_head (find_on commits.now index.now slots.now slot page)) }
{
    if !slots::is_set(slots, slot) {
        return coded(24);
    }
    let snapshot = slots::held(slots, slot);
    let mut out = [0u8; 722];
    let reply = searchcalls::search(commits, index, &snapshot, PageIdx(page), &mut out);
    if reply.found == 0 {
        return coded(reply.code);
    }
    Printed {
        code: 0,
        head: made::commit_head(&out),
    }
}

// The number that an answer earns: that of its refusal, and 0 where it is none.
fn number_or_zero(answer: Result<(), Refusal>) -> u32
    ensures { result ≡ code_of answer }
{
    match answer {
        Ok(()) => 0,
        Err(refusal) => refusal.number(),
    }
}

// op=fetch
pub fn fetch(
    commits: &mut [u8],
    checkpoints: &mut [u8],
    index: &mut [u8],
    log: u8,
    lsn: u64,
    count: u32,
    sid: u8,
    text: &[u8],
) -> u32
    requires { is_done (pages_of text.now) ≡ true }
    ensures { Fetches commits.old checkpoints.old index.old log lsn count sid text.now result commits.new checkpoints.new index.new }
{
    let pages = page_set(text);
    let number = pages.code;
    if number != 0 {
        return number;
    }
    let set = pages.set;
    let c = made::fetched_bytes(id_of(log), Lsn(lsn), PageCount(count), id_of(sid), set);
    number_or_zero(writecalls::write_commit(commits, checkpoints, index, &c))
}

// op=pull
pub fn pull(volumes: &mut [u8], commits: &[u8], vid: u8) -> u32
    ensures value { result ≡ code (pull_on volumes.old commits.now vid) }
    ensures volumes_after { volumes.new ≡ after volume_bytes (λ (x : Table Volume). x) volumes.old (pull_on volumes.old commits.now vid) }
{
    number_or_zero(synccalls::sync(volumes, commits, id_of(vid)))
}
