// How many records were replayed and how many differed, by the kind of call.
use plainset::tally;
use plainset::tally::Tally;
use std::io;
use std::io::Write;

// What a call is about.
#[derive(Clone, Copy)]
pub enum Kind {
    Numbers,
    Sets,
    Segments,
    Logs,
}

impl Kind {
    // The kind of a call.
    pub fn of(call: u32) -> Kind {
        match call {
            0..=9 => Kind::Numbers,
            10..=21 => Kind::Sets,
            22..=26 => Kind::Segments,
            _ => Kind::Logs,
        }
    }
}

// A tally for each kind.
#[derive(Clone, Copy, Default)]
pub struct Sums {
    pub numbers: Tally,
    pub sets: Tally,
    pub segments: Tally,
    pub logs: Tally,
}

impl Sums {
    // One record more: the kind of its call, and whether it was answered as it was.
    pub fn count(&mut self, kind: Kind, same: bool) {
        let tally = match kind {
            Kind::Numbers => &mut self.numbers,
            Kind::Sets => &mut self.sets,
            Kind::Segments => &mut self.segments,
            Kind::Logs => &mut self.logs,
        };
        tally.same(same, true);
    }
}

// Writes a line for each kind.
pub fn report(to: &mut impl Write, s: Sums) -> io::Result<()> {
    tally::report(to, b"LSNs, pages and counts", s.numbers)?;
    tally::report(to, b"page sets", s.sets)?;
    tally::report(to, b"frames and joins", s.segments)?;
    tally::report(to, b"changes and snapshots", s.logs)
}
