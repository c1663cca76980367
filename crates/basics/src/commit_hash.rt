// Commit hashes: 32 bytes, of any value. ZERO is all zeros.
ghost use Rattle.std.specs.Prelude.{◌≡◌};
ghost use Rattle.octets.specs.Order.{is_equal, lex};
ghost use Rattle.basics.specs.Hashes.{zero_hash, is_zero};

pub type CommitHash = [u8; 32];

// ZERO.
pub fn zero() -> CommitHash
    ensures { result ≡ zero_hash }
{
    [0u8; 32]
}

// Whether a hash is ZERO.
pub fn is_zero(h: CommitHash) -> bool
    ensures { result ≡ is_zero h }
{
    octets::all_zero(&h, 0, 32)
}

// Whether two hashes are the same.
pub fn same(a: CommitHash, b: CommitHash) -> bool
    ensures { result ≡ is_equal (lex a b) }
{
    octets::same(&a, 0, &b, 0, 32)
}
