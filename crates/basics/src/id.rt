// Identifiers: sixteen bytes, compared byte by byte.
ghost use Rattle.std.specs.Prelude.{◌≡◌};
ghost use Rattle.octets.specs.Order.{is_equal, lex, ordering};
ghost use Rattle.basics.specs.Orders.{bytes};

use std::cmp::Ordering;

pub type VolumeId = [u8; 16];

pub type LogId = [u8; 16];

pub type SegmentId = [u8; 16];

// Whether two identifiers are the same.
pub fn same(a: [u8; 16], b: [u8; 16]) -> bool
    ensures { result ≡ is_equal (lex a b) }
{
    octets::same_id(a, b)
}

// How two identifiers stand.
pub fn compare(a: [u8; 16], b: [u8; 16]) -> Ordering
    ensures { ordering result ≡ bytes a b }
{
    octets::compare_id(a, b)
}
