// Drives the calls on frames and ranges, each answer against plain lists, and writes how many were compared and how many differed.
#![tactic(auto)]

use plainset::tally;
use std::io;

mod damaged;
mod edges;
mod pieces;
mod readings;
mod rounds;
mod swept;

// Compares part by part, and prints how many comparisons each part made and how many differed.
fn main(rt: HostRuntime) -> io::Result<()> {
    let mut out = io::writer(&rt);
    tally::report(&mut out, b"readings P8 and P9", readings::all())?;
    tally::report(&mut out, b"frames at the edges", edges::all())?;
    tally::report(&mut out, b"damaged segments", damaged::all())?;
    tally::report(&mut out, b"joins", pieces::all())?;
    tally::report(&mut out, b"random frames", rounds::segments())?;
    tally::report(&mut out, b"random joins", rounds::joins())
}
