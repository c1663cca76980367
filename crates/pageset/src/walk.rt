// One turn of a walk over windows, on plain values: what is read, and what is written.
ghost use Rattle.std.specs.Prelude.{◌≡◌, ◌+◌, ◌-◌, ◌^◌, ◌<◌, ◌≤◌, if◌then◌else◌, bit_and, nat_lt};
ghost use Rattle.pageset.specs.Windows.{past_all, turn_of, window_of, pushed};

use crate::{PageSet, Window};

// The window of index q and that mask, after the first `len` of an array; answers how many count then: one more, or as many where the mask is zero.
pub fn put(windows: &mut [Window; 32], len: usize, q: u32, m: u64) -> usize
    requires { len < 32 }
    ensures { record { len = result; windows = windows.new } ≡ pushed q m (record { len = len; windows = windows.old }) }
{
    windows[len] = window_of(q, m);
    len + usize::from(m != 0)
}

// How a set under way is filled.
impl PageSet {
    // The window of index q and that mask after those that count; none where the mask is zero.
    pub fn push(&mut self, q: u32, m: u64)
        requires { self.old.len < 32 }
        ensures { self.new ≡ pushed q m self.old }
    {
        self.len = put(&mut self.windows, self.len, q, m);
    }
}

// The next window of n, or past the last one a window above all others that holds no page.
pub fn head(n: usize, i: usize, w: Window) -> Window
    ensures { result ≡ (if nat_lt i n then w else past_all) }
{
    if i < n {
        w
    } else {
        Window {
            index: 67108864,
            mask: 0,
        }
    }
}

// One turn of a walk over two sets, at the lower of their next indexes: the mask of each there, and how many windows of each are done with it.
#[derive(Clone, Copy)]
pub struct Turn {
    pub index: u32,
    pub left: u64,
    pub right: u64,
    pub lefts: usize,
    pub rights: usize,
}

// The next turn of a walk over two sets: the lower of two windows, or both where they stand for the same pages.
pub fn next_turn(x: Window, y: Window) -> Turn
    ensures value { result ≡ turn_of x y }
    ensures lefts_bound { (result.lefts ≤ 1) × (result.rights ≤ 1) × (1 ≤ result.lefts + result.rights) }
{
    if x.index < y.index {
        return Turn {
            index: x.index,
            left: x.mask,
            right: 0,
            lefts: 1,
            rights: 0,
        };
    }
    if y.index < x.index {
        return Turn {
            index: y.index,
            left: 0,
            right: y.mask,
            lefts: 0,
            rights: 1,
        };
    }
    Turn {
        index: x.index,
        left: x.mask,
        right: y.mask,
        lefts: 1,
        rights: 1,
    }
}

// The window of index q and that mask, and the zero window where the mask is zero.
pub fn window_of(q: u32, m: u64) -> Window
    ensures { result ≡ window_of q m }
{
    if m == 0 {
        Window { index: 0, mask: 0 }
    } else {
        Window { index: q, mask: m }
    }
}

// The bits of a mask that another has, or those that it has not.
pub fn picked(m: u64, other: u64, inside: bool) -> u64
    ensures { result ≡ (if inside then bit_and m other else bit_and m ((2 ^ 64 - 1) - other)) }
{
    if inside { m & other } else { m & !other }
}
