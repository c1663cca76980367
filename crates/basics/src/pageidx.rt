// Page numbers: 1 to 2^32-1.
ghost use Rattle.std.specs.Prelude.{◌≡◌};
ghost use Rattle.basics.specs.Numbers.{last_page, next_page, prev_page};
ghost use Rattle.basics.specs.Says.{page_says};

use crate::refusal::Refusal;

#[derive(Clone, Copy, Debug, PartialEq, Eq, PartialOrd, Ord)]
pub struct PageIdx(pub u32);

impl PageIdx {
    // The lowest page.
    pub fn first() -> PageIdx
        ensures { result.0 ≡ 1 }
    {
        PageIdx(1)
    }

    // The highest page.
    pub fn last() -> PageIdx
        ensures { result.0 ≡ last_page }
    {
        PageIdx(u32::MAX)
    }

    // The page after this one, and the last after itself: 1 for page 0.
    pub fn saturating_next(self) -> Result<PageIdx, Refusal>
        ensures { page_says result ≡ next_page self.0 }
    {
        let p = self.0;
        if p == 0 {
            return Err(Refusal::Zero);
        }
        Ok(PageIdx(p.saturating_add(1)))
    }

    // The page before this one, and the first before itself: 1 for page 0.
    pub fn saturating_prev(self) -> Result<PageIdx, Refusal>
        ensures { page_says result ≡ prev_page self.0 }
    {
        let p = self.0;
        if p == 0 {
            return Err(Refusal::Zero);
        }
        Ok(PageIdx((p - 1).max(1)))
    }
}
