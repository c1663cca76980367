// Drives the calls on page sets, each answer against that of a plain list of pages, and writes how many were compared and how many differed.
#![tactic(auto)]

use plainset::tally;
use std::io;

mod built;
mod damaged;
mod edges;
mod full;
mod rounds;

// Compares part by part, and prints how many comparisons each part made and how many differed.
fn main(rt: HostRuntime) -> io::Result<()> {
    let mut out = io::writer(&rt);
    tally::report(&mut out, b"built sets", built::all())?;
    tally::report(&mut out, b"ranges from edge to edge", edges::ranges())?;
    tally::report(&mut out, b"sets of edges", edges::sets())?;
    tally::report(&mut out, b"full sets", full::all())?;
    tally::report(&mut out, b"damaged sets", damaged::all())?;
    tally::report(&mut out, b"random sets", rounds::all())
}
