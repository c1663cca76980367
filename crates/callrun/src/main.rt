// The call list program: reads lines on standard input and prints one line each. What a line does is proved in callstep, and what it prints in the module printed; here bytes are read, cut into lines and written.
#![tactic(auto)]

pub mod printed;

ghost use Rattle.std.specs.Prelude.{◌≡◌, ◌+◌, ◌≤◌, IfOk, length};

use crate::printed::step_printed;
use callline::texts::piece_end;
use calltext::LINE_ROOM;
use callvalues::lines::keep;
use std::io;
use std::io::{Read, Write};

// The bytes that may wait to be written.
const OUT: usize = 8192;

// The bytes that are read at a time.
const BLOCK: usize = 4096;

// Where reading stands: whether there may be more input, the bytes of a line that are kept, the lines that have ended.
#[derive(Clone, Copy)]
struct Reading {
    more: bool,
    kept: usize,
    lines: u64,
}

// Where the next printed line goes: behind the bytes that wait to be written, which are written first where there is no room for it.
fn room(to: &mut impl Write, out: &[u8], waiting: usize) -> io::Result<usize>
    requires { (length out.now ≡ 8192) × (waiting ≤ 8192) }
    ensures { IfOk result (λ at. at + 96 ≤ 8192) }
{
    if OUT - waiting < LINE_ROOM {
        to.write_all(&out[0..waiting])?;
        return Ok(0);
    }
    Ok(waiting)
}

// A line has ended: what it prints goes behind the bytes that wait to be written. Answers how many wait.
fn line_ends(
    to: &mut impl Write,
    volumes: &mut [u8],
    commits: &mut [u8],
    checkpoints: &mut [u8],
    index: &mut [u8],
    presence: &mut [u8],
    slots: &mut [u8],
    line: &[u8],
    number: u64,
    out: &mut [u8],
    waiting: usize,
) -> io::Result<usize>
    requires { (length slots.old ≡ 1052) × (length out.old ≡ 8192) × (waiting ≤ 8192) }
    ensures { IfOk result (λ waits. waits ≤ 8192) }
{
    let at = room(to, out, waiting)?;
    let n = step_printed(
        volumes,
        commits,
        checkpoints,
        index,
        presence,
        slots,
        line,
        number,
        &mut out[at..],
    );
    Ok(at + n)
}

// The lines that end in a block of input, and what is kept of the last.
fn block_lines(
    to: &mut impl Write,
    volumes: &mut [u8],
    commits: &mut [u8],
    checkpoints: &mut [u8],
    index: &mut [u8],
    presence: &mut [u8],
    slots: &mut [u8],
    kept: &mut [u8],
    block: &[u8],
    r: Reading,
    out: &mut [u8],
) -> io::Result<Reading>
    requires { (length slots.old ≡ 1052) × (length kept.old ≡ 257) × (r.kept ≤ 257) × (length out.old ≡ 8192) }
    ensures { IfOk result (λ left. left.kept ≤ 257) }
{
    let mut at: usize = 0;
    let mut n = r.kept;
    let mut number = r.lines;
    let mut waiting: usize = 0;
    while at < block.len() {
        let end = piece_end(block, at, 10);
        n = keep(kept, n, &block[at..end]);
        at = end;
        if end < block.len() {
            at = end + 1;
            number = std::num::wrapping_add_u64(number, 1);
            waiting = line_ends(
                to,
                volumes,
                commits,
                checkpoints,
                index,
                presence,
                slots,
                &kept[0..n],
                number,
                out,
                waiting,
            )?;
            n = 0;
        }
    }
    to.write_all(&out[0..waiting])?;
    Ok(Reading {
        more: true,
        kept: n,
        lines: number,
    })
}

// Reads once, and prints for each line that has ended; at the end of the input for a last line without newline too.
fn turn(
    from: &mut impl Read,
    to: &mut impl Write,
    volumes: &mut [u8],
    commits: &mut [u8],
    checkpoints: &mut [u8],
    index: &mut [u8],
    presence: &mut [u8],
    slots: &mut [u8],
    kept: &mut [u8],
    r: Reading,
) -> io::Result<Reading>
    requires { (length slots.old ≡ 1052) × (length kept.old ≡ 257) × (r.kept ≤ 257) }
    ensures { IfOk result (λ left. left.kept ≤ 257) }
{
    let mut out = [0u8; OUT];
    let mut block = [0u8; BLOCK];
    let n = from.read(&mut block)?;
    if n == 0 {
        if 0 < r.kept {
            block_lines(
                to,
                volumes,
                commits,
                checkpoints,
                index,
                presence,
                slots,
                kept,
                b"\n",
                r,
                &mut out,
            )?;
        }
        return Ok(Reading {
            more: false,
            kept: 0,
            lines: r.lines,
        });
    }
    block_lines(
        to,
        volumes,
        commits,
        checkpoints,
        index,
        presence,
        slots,
        kept,
        &block[..n],
        r,
        &mut out,
    )
}

// Turn after turn, to the end of the input. A proved loop has to end, and nothing says that an input does: so the loop counts turns, up to more than any run takes.
fn run(
    from: &mut impl Read,
    to: &mut impl Write,
    volumes: &mut [u8],
    commits: &mut [u8],
    checkpoints: &mut [u8],
    index: &mut [u8],
    presence: &mut [u8],
    slots: &mut [u8],
    kept: &mut [u8],
) -> io::Result<()>
    requires { (length slots.old ≡ 1052) × (length kept.old ≡ 257) }
{
    let mut r = Reading {
        more: true,
        kept: 0,
        lines: 0,
    };
    for _ in 0..u64::MAX {
        r = turn(
            from,
            to,
            volumes,
            commits,
            checkpoints,
            index,
            presence,
            slots,
            kept,
            r,
        )?;
        if !r.more {
            return Ok(());
        }
    }
    Ok(())
}

// Empty tables of 4 volumes, 32 commits, 32 checkpoints, 512 index entries and 512 present pages, four unset slots, and no byte of a line. (No line names one of the 4 tags.)
fn main(rt: HostRuntime) -> io::Result<()> {
    let mut input = rt.reader();
    let mut output = io::writer(&rt);
    let mut volumes = [0u8; 470];
    let mut commits = [0u8; 23106];
    let mut checkpoints = [0u8; 802];
    let mut index = [0u8; 14850];
    let mut presence = [0u8; 10754];
    let mut slots = [0u8; 1052];
    let mut kept = [0u8; 257];
    run(
        &mut input,
        &mut output,
        &mut volumes,
        &mut commits,
        &mut checkpoints,
        &mut index,
        &mut presence,
        &mut slots,
        &mut kept,
    )
}
