// The pages of a set from the last down. A walk has come to windows that are not yet begun, the first n of the set, and to what is left of one window;
// each step yields the last page that is left, in a time that does not depend on the set.
#![tactic(auto)]

ghost use Rattle.std.specs.Prelude.{◌≡◌, ◌+◌, ◌-◌, ◌<◌};
ghost use Rattle.pagesdown.specs.Down.{LastOf, under, Stepped};

use pageset::Window;

// The last page of a window, and the window without it.
#[derive(Clone, Copy)]
pub struct Last {
    pub page: u32,
    pub rest: Window,
}

// The last page taken off a window that has one: the highest bit of its mask.
pub fn take_last(w: Window) -> Last
    requires { (0 < w.mask) × (w.index < 67108864) }
    ensures { LastOf w result.page result.rest }
{
    let b = 63 - u64::leading_zeros(w.mask);
    let rest = Window {
        index: w.index,
        mask: w.mask - (1u64 << b),
    };
    Last {
        page: w.index * 64 + b,
        rest,
    }
}

// The place of the last of n windows, and 0 where there is none.
pub fn last_place(n: usize) -> usize
    ensures { result ≡ n - 1 }
{
    n.saturating_sub(1)
}

// A step of the walk: the page that it yields, and what is left after it.
#[derive(Clone, Copy)]
pub struct Step {
    pub page: u32,
    pub windows: usize,
    pub rest: Window,
}

// The next page down: the last of w; where w has none left, the last of the window below it, which is then begun.
pub fn next_down(n: usize, w: Window, below: Window) -> Step
    requires { (0 < (under w below).mask) × ((under w below).index < 67108864) × (0 < n + w.mask) }
    ensures { Stepped n w below result.page result.windows result.rest }
{
    if w.mask == 0 {
        let last = take_last(below);
        let rest = last.rest;
        return Step {
            page: last.page,
            windows: n - 1,
            rest,
        };
    }
    let last = take_last(w);
    let rest = last.rest;
    Step {
        page: last.page,
        windows: n,
        rest,
    }
}
