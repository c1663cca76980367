// A line's step, printed: what the line prints, as bytes, and the tester afterwards.
ghost use Rattle.std.specs.Prelude.{◌≡◌, ◌≤◌, length};
ghost use Rattle.callstep.specs.Testers.{Tester};
ghost use Rattle.callrun.specs.Prints.{Prints};

use callstep::step;
use calltext::write_line;

// The step of the line of a number: what it prints, with a newline, over the first bytes of `out`. Answers how many they are.
pub fn step_printed(
    volumes: &mut [u8],
    commits: &mut [u8],
    checkpoints: &mut [u8],
    index: &mut [u8],
    presence: &mut [u8],
    slots: &mut [u8],
    line: &[u8],
    number: u64,
    out: &mut [u8],
) -> usize
    requires { (length slots.old ≡ 1052) × (96 ≤ length out.old) }
    ensures { Prints (record { volumes = volumes.old; commits = commits.old; checkpoints = checkpoints.old; index = index.old; presence = presence.old; slots = slots.old }) line.now number out.old result out.new (record { volumes = volumes.new; commits = commits.new; checkpoints = checkpoints.new; index = index.new; presence = presence.new; slots = slots.new }) }
{
    let p = step(volumes, commits, checkpoints, index, presence, slots, line);
    let code = p.code;
    let head = p.head;
    let n = write_line(out, number, code, head);
    octets::store8(out, n, 10);
    n + 1
}
