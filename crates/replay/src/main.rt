// Asks the exported functions what the original was asked, and compares their answers with its own: the records of sample.bin, in the form of oracle/SAMPLE.md.
// A record is answered as it was where the number, whether there is an answer, and every byte that was lent, zero before the call, are the recorded ones.
#![tactic(auto)]

use std::io::{Read, Write};
use std::{fs, io};
use sums::{Kind, Sums};

mod logs;
mod numbers;
mod record;
mod segments;
mod sets;
mod sums;

// Whether the next record of a call is answered as it was.
fn same(call: u32, file: &mut impl Read) -> io::Result<bool> {
    match Kind::of(call) {
        Kind::Numbers => numbers::same(call, file),
        Kind::Sets => sets::same(call, file),
        Kind::Segments => segments::same(call, file),
        Kind::Logs => logs::same(call, file),
    }
}

// Says which record differs.
fn tell(to: &mut impl Write, number: u64, call: u32) -> io::Result<()> {
    writeln!(to, "record {number}, call {call}, differs")
}

// All records up to the end of the file; the first 20 that differ are named. A proved loop has to end, and nothing says that a file does: so the loop counts
// records, up to more than there are.
fn all(file: &mut impl Read, to: &mut impl Write) -> io::Result<Sums> {
    let mut sums = Sums::default();
    let mut named: u64 = 0;
    for number in 1..=1000000u64 {
        let Some(call) = record::call(file)? else {
            return Ok(sums);
        };
        let as_it_was = same(call, file)?;
        if !as_it_was && named < 20 {
            tell(to, number, call)?;
            named += 1;
        }
        sums.count(Kind::of(call), as_it_was);
    }
    Ok(sums)
}

// Replays the sample and writes what was compared; a file that cannot be opened or read ends it with the error.
fn main(rt: HostRuntime) -> io::Result<()> {
    let mut file = fs::open(&rt, "sample.bin")?;
    let mut out = io::writer(&rt);
    let sums = all(&mut file, &mut out)?;
    sums::report(&mut out, sums)
}
