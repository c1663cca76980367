// The bits of one window.
ghost use Rattle.std.specs.Prelude.{◌≡◌, ◌-◌, ◌^◌, ◌<◌, ◌≤◌};
ghost use Rattle.pageset.specs.Sets.{bit};
ghost use Rattle.pageset.specs.Windows.{up_to, span_mask};

// Whether bit b of a mask is set.
pub fn has_bit(m: u64, b: u32) -> bool
    requires { b < 64 }
    ensures { result ≡ bit m b }
{
    (m >> b) & 1 == 1
}

// The number whose k lowest bits are set.
fn low_bits(k: u32) -> u64
    requires { k ≤ 64 }
    ensures { result ≡ 2 ^ k - 1 }
{
    if k < 64 { (1u64 << k) - 1 } else { u64::MAX }
}

// The bits of window q that stand for pages up to n. A window that lies whole up to n is told apart first: sets mostly have such windows, and they ask for no shift.
fn up_to(q: u32, n: u32) -> u64
    requires { q < 67108864 }
    ensures { result ≡ up_to n q }
{
    let base = q * 64;
    if n < base {
        return 0;
    }
    let k = n - base;
    if 63 <= k {
        return u64::MAX;
    }
    low_bits(k + 1)
}

// The bits of window q that stand for pages from lo to hi.
pub fn span_mask(q: u32, lo: u32, hi: u32) -> u64
    requires q_bound { q < 67108864 }
    requires lo_nonzero { 0 < lo }
    ensures { result ≡ span_mask lo hi q }
{
    up_to(q, hi) & !up_to(q, lo - 1)
}
