// One ordered table of records of one size in a lent byte slice: two bytes of count, then the records, `stride` bytes each,
// whose first `klen` bytes are the key, in strictly rising byte order of keys. What lies past the last record is not part of the table.
#![tactic(auto)]

ghost use Rattle.std.specs.Prelude.{◌≡◌, true, ◌+◌, ◌*◌, ◌≤◌, ◌<◌, length, set};
ghost use Rattle.table.specs.Records.{rises, spot, place, past, inserted, removed, put};
ghost use Rattle.table.specs.Table.{runs, count_of, cap_of, recs, laid, well_ordered, holds, fits};
ghost use Rattle.table.specs.Run.{RunOf};

// How many records t can hold.
// Kept: stride and klen as numbers, here and below, and no struct of both: five of these functions want the stride alone, callers have both as constants of a record, and each clause would only be longer by a field's path.
pub fn capacity(t: &[u8], stride: usize) -> usize
    requires { 0 < stride }
    ensures { result ≡ cap_of stride t.now }
{
    let n = t.len().saturating_sub(2) / stride;
    n.min(65535)
}

// The count of a table.
pub fn count(t: &[u8]) -> usize
    requires { 2 ≤ length t.now }
    ensures { (result ≡ count_of t.now) × (result < 65536) }
{
    octets::load16(t, 0)
}

// Whether the keys of n records strictly rise.
fn in_order(t: &[u8], stride: usize, klen: usize, n: usize) -> bool
    requires { (klen ≤ stride) × (2 + n * stride ≤ length t.now) }
    ensures { result ≡ rises klen (runs n stride 2 t.now) }
{
    for i in 1..n {
        let next = 2 + i * stride;
        let at = next - stride;
        if !octets::before(t, at, t, next, klen) {
            return false;
        }
    }
    true
}

// Whether t is a table: a count that it can hold, and keys that strictly rise.
pub fn well_ordered(t: &[u8], stride: usize, klen: usize) -> bool
    requires { (0 < stride) × (klen ≤ stride) }
    ensures { result ≡ well_ordered stride klen t.now }
{
    if t.len() < 2 {
        return false;
    }
    let n = count(t);
    if capacity(t, stride) < n {
        return false;
    }
    in_order(t, stride, klen, n)
}

// Among the first n records, the first place whose key is not below the given one, by halving.
pub fn seek_in(t: &[u8], stride: usize, klen: usize, n: usize, key: &[u8]) -> usize
    requires klen_le_stride { (klen ≤ stride) × (klen ≤ length key.now) × (2 + n * stride ≤ length t.now) × (n < 65536) }
    requires t_value { rises klen (runs n stride 2 t.now) ≡ true }
    ensures { (result ≡ place (spot klen key.now (runs n stride 2 t.now))) × (result ≤ n) }
{
    let mut low = 0;
    let mut high = n;
    // Kept: a search that halves, over bytes and not over a slice of records, which std's `partition_point` would want.
    while low < high {
        let middle = low + (high - low) / 2;
        if octets::before(t, 2 + middle * stride, key, 0, klen) {
            low = middle + 1;
        } else {
            high = middle;
        }
    }
    low
}

// Where a key stands among the first n records.
pub fn find_in(t: &[u8], stride: usize, klen: usize, n: usize, key: &[u8]) -> Result<usize, usize>
    requires klen_le_stride { (klen ≤ stride) × (klen ≤ length key.now) × (2 + n * stride ≤ length t.now) × (n < 65536) }
    requires t_value { rises klen (runs n stride 2 t.now) ≡ true }
    ensures { result ≡ spot klen key.now (runs n stride 2 t.now) }
{
    let i = seek_in(t, stride, klen, n, key);
    if i == n {
        return Err(i);
    }
    if octets::same(t, 2 + i * stride, key, 0, klen) {
        return Ok(i);
    }
    Err(i)
}

// Where a key stands.
pub fn find(t: &[u8], stride: usize, klen: usize, key: &[u8]) -> Result<usize, usize>
    requires stride_nonzero { (0 < stride) × (klen ≤ stride) × (klen ≤ length key.now) }
    requires t_value { well_ordered stride klen t.now ≡ true }
    ensures { result ≡ spot klen key.now (recs stride t.now) }
{
    find_in(t, stride, klen, count(t), key)
}

// The first place whose key is at or after the given one.
pub fn from_key(t: &[u8], stride: usize, klen: usize, key: &[u8]) -> usize
    requires stride_nonzero { (0 < stride) × (klen ≤ stride) × (klen ≤ length key.now) }
    requires t_value { well_ordered stride klen t.now ≡ true }
    ensures { (result ≡ place (spot klen key.now (recs stride t.now))) × (result ≤ count_of t.now) }
{
    seek_in(t, stride, klen, count(t), key)
}

// rec in the place of record i.
pub fn overwrite(t: &mut [u8], stride: usize, i: usize, rec: &[u8])
    requires { (0 < stride) × (i < count_of t.old) × (count_of t.old ≤ cap_of stride t.old) × (length rec.now ≡ stride) }
    ensures { t.new ≡ laid (set (recs stride t.old) i rec.now) t.old }
{
    octets::store_all(t, 2 + i * stride, rec);
}

// rec before record i; the records from i on move up.
pub fn insert(t: &mut [u8], stride: usize, i: usize, rec: &[u8])
    requires { (0 < stride) × (i ≤ count_of t.old) × (count_of t.old < cap_of stride t.old) × (length rec.now ≡ stride) }
    ensures { t.new ≡ laid (inserted i rec.now (recs stride t.old)) t.old }
{
    let n = count(t);
    let at = 2 + i * stride;
    octets::move_up(t, at, stride, (n - i) * stride);
    octets::store_all(t, at, rec);
    octets::store16(t, 0, n + 1);
}

// Record i goes; those after it move down.
pub fn remove(t: &mut [u8], stride: usize, i: usize)
    requires { (0 < stride) × (i < count_of t.old) × (count_of t.old ≤ cap_of stride t.old) }
    ensures { t.new ≡ laid (removed i (recs stride t.old)) t.old }
{
    let n = count(t);
    octets::move_down(t, 2 + i * stride, stride, (n - i - 1) * stride);
    octets::store16(t, 0, n - 1);
}

// rec in the place of the record of its key, or in its place in the order.
pub fn put(t: &mut [u8], stride: usize, klen: usize, rec: &[u8])
    requires stride_nonzero { (0 < stride) × (klen ≤ stride) × (length rec.now ≡ stride) }
    requires t_value { well_ordered stride klen t.old ≡ true }
    requires t_value_2 { fits stride (put klen rec.now (recs stride t.old)) t.old ≡ true }
    ensures { t.new ≡ laid (put klen rec.now (recs stride t.old)) t.old }
{
    match find(t, stride, klen, rec) {
        Ok(i) => overwrite(t, stride, i, rec),
        Err(i) => insert(t, stride, i, rec),
    }
}

// Whether t can hold `more` records more than it does.
pub fn room_for(t: &[u8], stride: usize, more: usize) -> bool
    requires { (0 < stride) × (2 ≤ length t.now) × (count_of t.now ≤ cap_of stride t.now) }
    ensures { result ≡ holds stride (count_of t.now + more) t.now }
{
    more <= capacity(t, stride) - count(t)
}

// Whether t has room for rec: its key is there, or one record more fits.
pub fn room(t: &[u8], stride: usize, klen: usize, rec: &[u8]) -> bool
    requires stride_nonzero { (0 < stride) × (klen ≤ stride) × (klen ≤ length rec.now) }
    requires t_value { well_ordered stride klen t.now ≡ true }
    ensures { result ≡ fits stride (put klen rec.now (recs stride t.now)) t.now }
{
    match find(t, stride, klen, rec) {
        Ok(_) => true,
        Err(_) => room_for(t, stride, 1),
    }
}

// The first place whose key is after the given one.
pub fn past_key(t: &[u8], stride: usize, klen: usize, key: &[u8]) -> usize
    requires stride_nonzero { (0 < stride) × (klen ≤ stride) × (klen ≤ length key.now) }
    requires t_value { well_ordered stride klen t.now ≡ true }
    ensures { (result ≡ past (spot klen key.now (recs stride t.now))) × (result ≤ count_of t.now) }
{
    match find(t, stride, klen, key) {
        Ok(i) => i + 1,
        Err(i) => i,
    }
}

// A run of records: from a place up to another, that one not included; none where `to` is not above `from`.
#[derive(Clone, Copy)]
pub struct Run {
    pub from: usize,
    pub to: usize,
}

// The run of the records whose keys lie from a to b, both included.
pub fn between(t: &[u8], stride: usize, klen: usize, a: &[u8], b: &[u8]) -> Run
    requires stride_nonzero { (0 < stride) × (klen ≤ stride) × (klen ≤ length a.now) × (klen ≤ length b.now) }
    requires t_value { well_ordered stride klen t.now ≡ true }
    ensures { RunOf stride klen a.now b.now t.now result.from result.to }
{
    let from = from_key(t, stride, klen, a);
    let to = past_key(t, stride, klen, b);
    Run { from, to }
}
