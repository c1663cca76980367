// The bytes of a line, kept as they come: of an over-long line just so many that it is one.
ghost use Rattle.std.specs.Prelude.{◌≡◌, ◌+◌, ◌-◌, ◌≤◌, min, length, take};
ghost use Rattle.octets.specs.Bytes.{put};

// One byte more than a line may have.
pub const KEPT: usize = 257;

// More bytes of a line, behind the n that are kept; answers how many are kept now.
pub fn keep(kept: &mut [u8], n: usize, piece: &[u8]) -> usize
    requires { (n ≤ 257) × (length kept.old ≡ 257) }
    ensures { (kept.new ≡ put n (take (257 - n) piece.now) kept.old) × (result ≡ min 257 (n + length piece.now)) }
{
    let room = KEPT - n;
    if room < piece.len() {
        octets::store_all(kept, n, &piece[0..room]);
        return KEPT;
    }
    octets::store_all(kept, n, piece);
    n + piece.len()
}
