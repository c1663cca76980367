// The values of a call list line: identifiers, decimals, ranges of pages. Each function judges a whole text.
ghost use Rattle.std.specs.Prelude.{◌≡◌, ◌<◌, ◌≤◌};
ghost use Rattle.callline.specs.Values.{hex_digit, identifier_of, leads, decimal_of, range_of, pages_of};
ghost use Rattle.callline.specs.Says.{number_says, range_says, is_done};

use crate::texts;

// The largest page number and page count.
pub const LAST_U32: u64 = 4294967295;

// A number, or a text that is not in the form.
#[derive(Clone, Copy)]
pub enum Number {
    Malformed,
    Is(u64),
}

// The first and the last page of a range, or a text that is not in the form.
#[derive(Clone, Copy)]
pub enum Pages {
    Malformed,
    From(u32, u32),
}

// The value of a digit of lower case hex; 16 for any other byte.
fn hex_digit(b: u8) -> u64
    ensures { (result ≡ hex_digit b) × (result ≤ 16) }
{
    if b < 48 {
        return 16;
    }
    if b <= 57 {
        return (b - 48) as u64;
    }
    if b < 97 {
        return 16;
    }
    if b <= 102 {
        return (b - 87) as u64;
    }
    16
}

// An identifier's last byte, from two hex digits.
pub fn identifier(s: &[u8]) -> Number
    ensures { number_says result ≡ identifier_of s.now }
{
    if s.len() != 2 {
        return Number::Malformed;
    }
    let high = hex_digit(s[0]);
    if 16 <= high {
        return Number::Malformed;
    }
    let low = hex_digit(s[1]);
    if 16 <= low {
        return Number::Malformed;
    }
    Number::Is(high * 16 + low)
}

// Whether a text has a first digit that is no leading zero.
fn has_lead(s: &[u8]) -> bool
    ensures { result ≡ leads s.now }
{
    if s.len() == 0 {
        return false;
    }
    if s.len() == 1 {
        return true;
    }
    s[0] != 48
}

// A decimal without leading zeros that is at most the limit. A number too large is refused before it is made.
pub fn decimal(s: &[u8], limit: u64) -> Number
    ensures { number_says result ≡ decimal_of limit s.now }
{
    if !has_lead(s) {
        return Number::Malformed;
    }
    let mut n: u64 = 0;
    let mut i: usize = 0;
    while i < s.len() {
        let b = s[i];
        if b < 48 {
            return Number::Malformed;
        }
        if 57 < b {
            return Number::Malformed;
        }
        let digit = (b - 48) as u64;
        if limit < digit {
            return Number::Malformed;
        }
        if (limit - digit) / 10 < n {
            return Number::Malformed;
        }
        n = n * 10 + digit;
        i += 1;
    }
    Number::Is(n)
}

// A range of pages: a page alone, or two with `-` between.
pub fn range(s: &[u8]) -> Pages
    ensures { range_says result ≡ range_of s.now }
{
    let mid = texts::piece_end(s, 0, 45);
    let Number::Is(a) = decimal(&s[0..mid], LAST_U32) else {
        return Pages::Malformed;
    };
    if mid == s.len() {
        return Pages::From(a as u32, a as u32);
    }
    let from = mid + 1;
    let to = texts::piece_end(s, from, 45);
    if to != s.len() {
        return Pages::Malformed;
    }
    let Number::Is(b) = decimal(&s[from..to], LAST_U32) else {
        return Pages::Malformed;
    };
    Pages::From(a as u32, b as u32)
}

// Whether a text is `-` or rising ranges from 1 up.
pub fn is_pages(s: &[u8]) -> bool
    ensures { result ≡ is_done (pages_of s.now) }
{
    if texts::is_text(s, b"-") {
        return true;
    }
    let mut low: u32 = 0;
    let mut at: usize = 0;
    loop {
        let end = texts::piece_end(s, at, 44);
        let Pages::From(first, last) = range(&s[at..end]) else {
            return false;
        };
        if first <= low {
            return false;
        }
        if last < first {
            return false;
        }
        if end == s.len() {
            return true;
        }
        low = last;
        at = end + 1;
    }
}
