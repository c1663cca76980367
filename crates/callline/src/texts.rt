// Texts taken apart: where a piece ends, and what a text begins with.
ghost use Rattle.std.specs.Prelude.{◌≡◌, ◌+◌, ◌≤◌, length, drop};
ghost use Rattle.callline.specs.Texts.{before, starts, is_text};

// Where the piece that starts at a place ends: at the next byte that equals `sep`, or at the end of the text.
pub fn piece_end(s: &[u8], at: usize, sep: u8) -> usize
    requires { at ≤ length s.now }
    ensures { (result ≡ at + before sep (drop at s.now)) × (result ≤ length s.now) }
{
    let mut i = at;
    while i < s.len() {
        if s[i] == sep {
            return i;
        }
        i += 1;
    }
    i
}

// Whether a text begins with another.
pub fn starts_with(s: &[u8], key: &[u8]) -> bool
    ensures { result ≡ starts key.now s.now }
{
    if s.len() < key.len() {
        return false;
    }
    let mut i: usize = 0;
    while i < key.len() {
        if s[i] != key[i] {
            return false;
        }
        i += 1;
    }
    true
}

// Whether two texts are the same.
pub fn is_text(s: &[u8], key: &[u8]) -> bool
    ensures { result ≡ is_text key.now s.now }
{
    if s.len() != key.len() {
        return false;
    }
    starts_with(s, key)
}
