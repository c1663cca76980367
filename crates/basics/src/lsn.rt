// LSNs: the numbers of a log's commits, 1 to 2^64-1.
ghost use Rattle.std.specs.Prelude.{◌≡◌};
ghost use Rattle.basics.specs.Numbers.{last_lsn, next_lsn, prev_lsn, next_lsn_or_last, prev_lsn_or_first};
ghost use Rattle.basics.specs.Says.{lsn_says, maybe_lsn_says};

use crate::refusal::Refusal;

#[derive(Clone, Copy, Debug, PartialEq, Eq, PartialOrd, Ord)]
pub struct Lsn(pub u64);

impl Lsn {
    // The lowest LSN.
    pub fn first() -> Lsn
        ensures { result.0 ≡ 1 }
    {
        Lsn(1)
    }

    // The highest LSN.
    pub fn last() -> Lsn
        ensures { result.0 ≡ last_lsn }
    {
        Lsn(u64::MAX)
    }

    // The LSN after this one: 1 for LSN 0, 18 where none is left.
    pub fn next(self) -> Result<Lsn, Refusal>
        ensures { lsn_says result ≡ next_lsn self.0 }
    {
        let n = self.0;
        if n == 0 {
            return Err(Refusal::Zero);
        }
        if n == u64::MAX {
            return Err(Refusal::NoLsnLeft);
        }
        Ok(Lsn(n + 1))
    }

    // The LSN before this one, or nothing before the first: 1 for LSN 0.
    pub fn checked_prev(self) -> Result<Option<Lsn>, Refusal>
        ensures { maybe_lsn_says result ≡ prev_lsn self.0 }
    {
        let n = self.0;
        if n == 0 {
            return Err(Refusal::Zero);
        }
        if n == 1 {
            return Ok(None);
        }
        Ok(Some(Lsn(n - 1)))
    }

    // The LSN after this one, and the last after itself: 1 for LSN 0.
    pub fn saturating_next(self) -> Result<Lsn, Refusal>
        ensures { lsn_says result ≡ next_lsn_or_last self.0 }
    {
        let n = self.0;
        if n == 0 {
            return Err(Refusal::Zero);
        }
        Ok(Lsn(n.saturating_add(1)))
    }

    // The LSN before this one, and the first before itself: 1 for LSN 0.
    pub fn saturating_prev(self) -> Result<Lsn, Refusal>
        ensures { lsn_says result ≡ prev_lsn_or_first self.0 }
    {
        let n = self.0;
        if n == 0 {
            return Err(Refusal::Zero);
        }
        Ok(Lsn((n - 1).max(1)))
    }
}
