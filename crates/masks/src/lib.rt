// The windows of a set that stand in bytes, with masks of their own beside them: what is left of a set while pages are taken from it, without a copy of the set.
#![tactic(auto)]

ghost use Rattle.std.specs.Prelude.{◌≡◌, true, ◌+◌, ◌*◌, ◌<◌, ◌≤◌, length, replicate};
ghost use Rattle.octets.specs.Bytes.{put};
ghost use Rattle.octets.specs.Flat.{flat};
ghost use Rattle.pageset.specs.Sets.{rising};
ghost use Rattle.rules.specs.Pages.{up_to};
ghost use Rattle.layout.specs.Values.{window_bytes, set_bytes};
ghost use Rattle.setbytes.specs.Laid.{windows_at};
ghost use Rattle.masks.specs.Masks.{given, less_masks, more_masks, no_masks};

use octets::{load32, load64, store8, store32, store64};

// The mask of a window, without what lies above a page count.
pub fn kept(index: u32, mask: u64, count: u32) -> u64
    ensures { result ≡ up_to count index mask }
{
    if index < count / 64 {
        return mask;
    }
    if count / 64 < index {
        return 0;
    }
    mask & (u64::MAX >> (63 - count % 64))
}

// Each mask of n windows without the pages that m other windows hold. Both rise, and are walked together, the lower index first.
pub fn less(s: &[u8], at: usize, n: usize, masks: &mut [u64], other: usize, m: usize)
    requires n_in_bounds { (at + n * 12 ≤ length s.now) × (other + m * 12 ≤ length s.now) × (n ≤ 32) × (m ≤ 32) × (length masks.old ≡ 32) }
    requires s_value { (rising 0 (windows_at n at s.now) ≡ true) × (rising 0 (windows_at m other s.now) ≡ true) }
    ensures { masks.new ≡ less_masks (windows_at n at s.now) (windows_at m other s.now) masks.old }
{
    let mut i: usize = 0;
    let mut j: usize = 0;
    // Kept: two walks that go at their own pace; no one iterator does it plainer.
    while i < n {
        if m <= j {
            return;
        }
        let x = load32(s, at + i * 12);
        let y = load32(s, other + j * 12);
        if x < y {
            i += 1;
        } else if x == y {
            masks[i] &= !load64(s, other + j * 12 + 4);
            i += 1;
            j += 1;
        } else {
            j += 1;
        }
    }
}

// Whether the first n masks have no page.
pub fn none_left(masks: &[u64], n: usize) -> bool
    requires { (n ≤ 32) × (length masks.now ≡ 32) }
    ensures { result ≡ no_masks n masks.now }
{
    masks[..n].iter().all(|m| *m == 0)
}

// The first n masks with the pages of n others.
pub fn more(masks: &mut [u64], others: &[u64], n: usize)
    requires { (n ≤ 32) × (length masks.old ≡ 32) × (length others.now ≡ 32) }
    ensures { masks.new ≡ more_masks n masks.old others.now }
{
    for i in 0..n {
        masks[i] |= others[i];
    }
}

// The windows of a set with masks of their own, those without a page left out, from a place of the list on; and their number.
fn put_windows(list: &mut [u8], to: usize, s: &[u8], at: usize, n: usize, masks: &[u64]) -> usize
    requires { (to + n * 12 ≤ length list.old) × (at + n * 12 ≤ length s.now) × (n ≤ 32) × (length masks.now ≡ 32) }
    ensures value { (result ≡ length (given (windows_at n at s.now) masks.now)) × (result ≤ n) }
    ensures list_after { list.new ≡ put to (flat window_bytes.spell (given (windows_at n at s.now) masks.now)) list.old }
{
    let mut w: usize = 0;
    for i in 0..n {
        let mask = masks[i];
        if mask == 0 {
            continue;
        }
        store32(list, to + w * 12, load32(s, at + i * 12));
        store64(list, to + w * 12 + 4, mask);
        w += 1;
    }
    w
}

// Zeros over n bytes of the list.
fn put_zeros(list: &mut [u8], to: usize, n: usize)
    requires { to + n ≤ length list.old }
    ensures { list.new ≡ put to (replicate n 0) list.old }
{
    list[to..to + n].fill(0);
}

// The set of the windows with masks of their own, those without a page left out, over 385 bytes of the list.
pub fn put_given(list: &mut [u8], to: usize, s: &[u8], at: usize, n: usize, masks: &[u64])
    requires { (to + 385 ≤ length list.old) × (at + n * 12 ≤ length s.now) × (n ≤ 32) × (length masks.now ≡ 32) }
    ensures { list.new ≡ put to (set_bytes.spell (given (windows_at n at s.now) masks.now)) list.old }
{
    let w = put_windows(list, to + 1, s, at, n, masks);
    put_zeros(list, to + 1 + w * 12, (32 - w) * 12);
    store8(list, to, w as u8);
}
