// A page set in bytes: the number of windows, and 32 places of 12 bytes, a window's index and its mask; zero past the windows that count.
#![tactic(auto)]

ghost use Rattle.std.specs.Prelude.{◌≡◌, ◌+◌, ◌-◌, ◌*◌, ◌≤◌, min, true, ◌&&◌, ◌++◌, length, replicate};
ghost use Rattle.octets.specs.Bytes.{be, part, put};
ghost use Rattle.octets.specs.Flat.{flat};
ghost use Rattle.basics.specs.Says.{maybe_page_says};
ghost use Rattle.pageset.specs.Sets.{shown, holds, rising, window_forms, normal_form, zero_window};
ghost use Rattle.rules.specs.Pages.{first_page};
ghost use Rattle.layout.specs.Codecs.{Codec, in_form};
ghost use Rattle.layout.specs.Values.{window_bytes, set_bytes};
ghost use Rattle.setbytes.specs.Laid.{windows_at, set_laid};

use basics::pageidx::PageIdx;
use octets::{all_zero, load8, load32, load64, store8, store32, store64};
use pageset::{PageSet, Window};

// The window at a place.
fn window_read(s: &[u8], at: usize) -> Window
    requires { at + 12 ≤ length s.now }
    ensures { result ≡ window_bytes.read (part at 12 s.now) }
{
    let index = load32(s, at);
    let mask = load64(s, at + 4);
    Window { index, mask }
}

// A window over the 12 bytes at a place.
fn window_write(s: &mut [u8], at: usize, w: Window)
    requires { at + 12 ≤ length s.old }
    ensures { s.new ≡ put at (window_bytes.spell w) s.old }
{
    store32(s, at, w.index);
    store64(s, at + 4, w.mask);
}

// The number at a place, and the limit where it is above it.
pub fn count_read(s: &[u8], at: usize, limit: usize) -> usize
    requires { at + 1 ≤ length s.now }
    ensures { result ≡ min (be (part at 1 s.now)) limit }
{
    usize::from(load8(s, at)).min(limit)
}

// Whether the n windows from a place on strictly rise, and each holds a page.
fn in_order(s: &[u8], at: usize, n: usize) -> bool
    requires { (n ≤ 32) × (at + n * 12 ≤ length s.now) }
    ensures { result ≡ (rising 0 (windows_at n at s.now) && window_forms (windows_at n at s.now)) }
{
    let mut lo: u32 = 0;
    for i in 0..n {
        let w = window_read(s, at + i * 12);
        if w.index < lo {
            return false;
        }
        if 67108863 < w.index {
            return false;
        }
        if w.mask == 0 {
            return false;
        }
        lo = w.index + 1;
    }
    true
}

// Whether n windows in order hold page 0: only the first can.
fn has_page_zero(s: &[u8], at: usize, n: usize) -> bool
    requires n_in_bounds { at + n * 12 ≤ length s.now }
    requires s_value { (rising 0 (windows_at n at s.now) && window_forms (windows_at n at s.now)) ≡ true }
    ensures { result ≡ holds (windows_at n at s.now) 0 }
{
    if n == 0 {
        return false;
    }
    if load32(s, at) != 0 {
        return false;
    }
    load64(s, at + 4) % 2 == 1
}

// Whether the 385 bytes at a place are those of a page set in normal form.
pub fn set_form(s: &[u8], at: usize) -> bool
    requires { at + 385 ≤ length s.now }
    ensures { result ≡ in_form set_bytes normal_form (part at 385 s.now) }
{
    let n = usize::from(load8(s, at));
    if 32 < n {
        return false;
    }
    if !in_order(s, at + 1, n) {
        return false;
    }
    if has_page_zero(s, at + 1, n) {
        return false;
    }
    all_zero(s, at + 1 + n * 12, (32 - n) * 12)
}

// The n windows from a place on, in an array; zero past them.
// Kept: frames, LSNs and ranges have the same loop in their crates; a trait would want an impl where neither it nor the type stands, and a closure a law longer than the loop.
fn windows_read(s: &[u8], at: usize, n: usize) -> [Window; 32]
    requires { (n ≤ 32) × (at + n * 12 ≤ length s.now) }
    ensures { result ≡ windows_at n at s.now ++ replicate (32 - n) zero_window }
{
    let none = Window { index: 0, mask: 0 };
    let mut ws = [none; 32];
    for i in 0..n {
        ws[i] = window_read(s, at + i * 12);
    }
    ws
}

// The page set that the 385 bytes at a place spell; of a count over 32 only 32 windows.
pub fn set_read(s: &[u8], at: usize) -> PageSet
    requires { at + 385 ≤ length s.now }
    ensures { result ≡ set_laid (set_bytes.read (part at 385 s.now)) }
{
    let len = count_read(s, at, 32);
    let windows = windows_read(s, at + 1, len);
    PageSet { len, windows }
}

// All windows of an array over the 384 bytes at a place.
// Kept: frames, LSNs and ranges have the same loop in their crates; a trait would want an impl where neither it nor the type stands, and a closure a law longer than the loop.
fn windows_write(s: &mut [u8], at: usize, ws: [Window; 32])
    requires { at + 384 ≤ length s.old }
    ensures { s.new ≡ put at (flat window_bytes.spell ws) s.old }
{
    for (i, w) in ws.iter().enumerate() {
        window_write(s, at + 12 * i, *w);
    }
}

// A page set, zero past the windows that count, over the 385 bytes at a place.
pub fn set_write(s: &mut [u8], at: usize, x: PageSet)
    requires at_in_bounds { at + 385 ≤ length s.old }
    requires x_value { set_laid (shown x) ≡ x }
    ensures { s.new ≡ put at (set_bytes.spell (shown x)) s.old }
{
    let n = x.len;
    let ws = x.windows;
    store8(s, at, n as u8);
    windows_write(s, at + 1, ws);
}

// The first page of a page set in form, or nothing: trailing zeros of the first mask.
pub fn set_first(s: &[u8], at: usize) -> Option<PageIdx>
    requires at_in_bounds { at + 385 ≤ length s.now }
    requires s_value { in_form set_bytes normal_form (part at 385 s.now) ≡ true }
    ensures { maybe_page_says result ≡ first_page (set_bytes.read (part at 385 s.now)) }
{
    if load8(s, at) == 0 {
        return None;
    }
    let index = load32(s, at + 1);
    let mask = load64(s, at + 5);
    let b = u64::trailing_zeros(mask);
    Some(PageIdx(index * 64 + b))
}
