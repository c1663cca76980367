// A call list, line by line: from a line and the tester, lent as five tables and four slots in bytes, to the line that is printed and the tester afterwards.
#![tactic(auto)]

pub mod calls;

ghost use Rattle.std.specs.Prelude.{◌≡◌, length};
ghost use Rattle.callstep.specs.Testers.{Tester};
ghost use Rattle.callstep.specs.Steps.{Steps};
ghost use Rattle.callstep.specs.Says.{stepped};

use callline::{Line, parse};
use calltext::Head;

// What a line prints: a code, and the commit that it names.
#[derive(Clone, Copy)]
pub struct Printed {
    pub code: u32,
    pub head: Head,
}

// The step of a line.
pub fn step(
    volumes: &mut [u8],
    commits: &mut [u8],
    checkpoints: &mut [u8],
    index: &mut [u8],
    presence: &mut [u8],
    slots: &mut [u8],
    line: &[u8],
) -> Printed
    requires { length slots.old ≡ 1052 }
    ensures { Steps (record { volumes = volumes.old; commits = commits.old; checkpoints = checkpoints.old; index = index.old; presence = presence.old; slots = slots.old }) line.now (stepped result (record { volumes = volumes.new; commits = commits.new; checkpoints = checkpoints.new; index = index.new; presence = presence.new; slots = slots.new })) }
{
    let call = parse(line);
    match call {
        Line::Malformed => calls::coded(24),
        Line::Open { vid, local, remote } => {
            calls::coded(calls::open(volumes, commits, vid, local, remote))
        }
        Line::Snap { vid, slot } => calls::snap(volumes, commits, slots, vid, slot),
        Line::Save {
            vid,
            slot,
            count,
            sid,
            from,
            to,
        } => calls::save(
            volumes,
            commits,
            checkpoints,
            index,
            presence,
            slots,
            vid,
            slot,
            count,
            sid,
            &line[from..to],
        ),
        Line::Find { slot, page } => calls::find(commits, index, slots, slot, page),
        Line::Fetch {
            log,
            lsn,
            count,
            sid,
            from,
            to,
        } => calls::coded(calls::fetch(
            commits,
            checkpoints,
            index,
            log,
            lsn,
            count,
            sid,
            &line[from..to],
        )),
        Line::Pull { vid } => calls::coded(calls::pull(volumes, commits, vid)),
    }
}
