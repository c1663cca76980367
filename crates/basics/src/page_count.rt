// Page counts: 0 to 2^32-1. n pages end at page n.
ghost use Rattle.std.specs.Prelude.{◌≡◌};
ghost use Rattle.basics.specs.Numbers.{next_count, prev_count, end_page};
ghost use Rattle.basics.specs.Says.{maybe_page_says};

use crate::pageidx::PageIdx;

#[derive(Clone, Copy, Debug, PartialEq, Eq, PartialOrd, Ord)]
pub struct PageCount(pub u32);

impl PageCount {
    // One page more, and the highest count after itself.
    pub fn saturating_incr(self) -> PageCount
        ensures { result.0 ≡ next_count self.0 }
    {
        PageCount(self.0.saturating_add(1))
    }

    // One page less, and no page after none.
    pub fn saturating_decr(self) -> PageCount
        ensures { result.0 ≡ prev_count self.0 }
    {
        PageCount(self.0.saturating_sub(1))
    }

    // The last of this many pages, or nothing where there is none.
    pub fn last_pageidx(self) -> Option<PageIdx>
        ensures { maybe_page_says result ≡ end_page self.0 }
    {
        let n = self.0;
        if n == 0 {
            return None;
        }
        Some(PageIdx(n))
    }
}
