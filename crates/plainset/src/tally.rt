// Comparisons and differences, counted and written out.
ghost use Rattle.std.specs.Prelude.{Some};
ghost use Rattle.plainset.specs.Words.{tally_words};

use std::fmt::{Display, Formatter};
use std::io::Write;
use std::{fmt, io};

// How many answers were compared, and how many of them differed.
#[derive(Clone, Copy, Default)]
pub struct Tally {
    pub compared: u64,
    pub differing: u64,
}

impl Tally {
    // One comparison more: what a call answered, and what the list says.
    pub fn same<T: PartialEq + Drop>(&mut self, got: T, want: T) {
        self.compared = self.compared.wrapping_add(1);
        if got != want {
            self.differing = self.differing.wrapping_add(1);
        }
    }
}

// Both counts in words. `report` writes them itself, so that a line ends by one write.
impl Display for Tally {
    ghost output = { λ t. Some (tally_words t) };

    fn fmt<W: fmt::Write>(&self, f: &mut Formatter<W>) -> fmt::Result {
        let compared = self.compared;
        let differing = self.differing;
        write!(f, "{compared} comparisons, {differing} differences")
    }
}

// Writes one line: what was compared, and both counts.
pub fn report(to: &mut impl Write, name: &[u8], t: Tally) -> io::Result<()> {
    to.write_all(name)?;
    let compared = t.compared;
    let differing = t.differing;
    writeln!(to, ": {compared} comparisons, {differing} differences")
}

#[cfg(test)]
mod tests {
    use super::*;
    use std::test::Fail;

    // A tally reads as its two counts, the comparisons first.
    #[test]
    fn reads_as_both_counts(rt: HostRuntime) -> Result<(), Fail> {
        let mut tally = Tally::default();
        tally.same(1, 1);
        tally.same(1, 2);
        tally.same(2, 2);
        let words = format!(in rt.alloc(); "{tally}")?;
        assert_eq!(rt; words.as_str(), "3 comparisons, 1 differences");
        Ok(())
    }
}
