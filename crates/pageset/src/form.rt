// A set's form.
ghost use Rattle.std.specs.Prelude.{◌≡◌, ◌≤◌, ◌&&◌, drop};
ghost use Rattle.pageset.specs.Sets.{shown, mask_at, holds, rising, window_forms, blank, normal};

use crate::{PageSet, bits};

// Whether the windows that count strictly rise and each holds a page.
fn in_order(s: PageSet) -> bool
    requires { s.len ≤ 32 }
    ensures { result ≡ (rising 0 (shown s) && window_forms (shown s)) }
{
    let mut lo: u32 = 0;
    for w in &s.windows[..s.len] {
        if w.index < lo {
            return false;
        }
        if 67108863 < w.index {
            return false;
        }
        if w.mask == 0 {
            return false;
        }
        lo = w.index + 1;
    }
    true
}

// Whether the windows that do not count are zero.
fn clear_past(s: PageSet) -> bool
    requires { s.len ≤ 32 }
    ensures { result ≡ blank (drop s.len s.windows) }
{
    s.windows[s.len..]
        .iter()
        .all(|w| w.index == 0 && w.mask == 0)
}

// The mask of window q, and 0 where there is none.
pub fn mask_at(s: PageSet, q: u32) -> u64
    requires { s.len ≤ 32 }
    ensures { result ≡ mask_at (shown s) q }
{
    for w in &s.windows[..s.len] {
        if w.index == q {
            return w.mask;
        }
    }
    0
}

// Whether a number is a page of the windows that count.
pub fn has_page(s: PageSet, p: u32) -> bool
    requires { s.len ≤ 32 }
    ensures { result ≡ holds (shown s) p }
{
    let m = mask_at(s, p / 64);
    bits::has_bit(m, p % 64)
}

// Whether a set is in normal form.
pub fn is_normal(s: PageSet) -> bool
    ensures { result ≡ normal s }
{
    if 32 < s.len {
        return false;
    }
    if !clear_past(s) {
        return false;
    }
    if !in_order(s) {
        return false;
    }
    !has_page(s, 0)
}
