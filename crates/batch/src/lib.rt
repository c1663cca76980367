// Many records into one table, or a run of them out of it. A batch is a byte slice of n records of `stride` bytes, one after another.
#![tactic(auto)]

ghost use Rattle.std.specs.Prelude.{◌≡◌, true, ◌+◌, ◌-◌, ◌*◌, ◌≤◌, ◌<◌, ◌++◌, length, take, drop};
ghost use Rattle.octets.specs.Bytes.{part};
ghost use Rattle.octets.specs.Bytes as B;
ghost use Rattle.table.specs.Records.{rises, spot, place, hits};
ghost use Rattle.table.specs.Table.{runs, count_of, recs, laid, well_ordered, fits};
ghost use Rattle.batch.specs.Batch.{put_all, lacks, news, fresh, lifted, Merged};

// What a count from the back knows of a key: how many records stand before its place, and 1 where none has the key, else 0.
#[derive(Clone, Copy)]
pub struct Passed {
    pub held: usize,
    pub lacking: usize,
}

// One step of a count from the back, among the first `held` records: keys below this one stand before its place.
pub fn lacking_below(t: &[u8], stride: usize, klen: usize, held: usize, key: &[u8]) -> Passed
    requires klen_le_stride { (klen ≤ stride) × (klen ≤ length key.now) × (2 + held * stride ≤ length t.now) × (held < 65536) }
    requires t_value { rises klen (runs held stride 2 t.now) ≡ true }
    ensures { (result.held ≡ place (spot klen key.now (runs held stride 2 t.now))) × (result.lacking ≡ lacks klen key.now (runs held stride 2 t.now)) × (result.lacking ≤ 1) }
{
    match table::find_in(t, stride, klen, held, key) {
        Ok(i) => Passed {
            held: i,
            lacking: 0,
        },
        Err(i) => Passed {
            held: i,
            lacking: 1,
        },
    }
}

// 1 where no record of t has that key, else 0.
pub fn lacking(t: &[u8], stride: usize, klen: usize, key: &[u8]) -> usize
    requires stride_nonzero { (0 < stride) × (klen ≤ stride) × (klen ≤ length key.now) }
    requires t_value { well_ordered stride klen t.now ≡ true }
    ensures { (result ≡ lacks klen key.now (recs stride t.now)) × (result ≤ 1) }
{
    lacking_below(t, stride, klen, table::count(t), key).lacking
}

// Record i of a batch.
fn record(batch: &[u8], stride: usize, i: usize) -> &[u8]
    requires { i * stride + stride ≤ length batch.now }
    ensures { (result.now ≡ part (i * stride) stride batch.now) × (length result.now ≡ stride) }
{
    let from = i * stride;
    &batch[from..from + stride]
}

// How many of the n records of a batch have a key that is not in t; of a rising batch, its distinct new keys.
pub fn count_fresh(t: &[u8], stride: usize, klen: usize, batch: &[u8], n: usize) -> usize
    requires stride_nonzero { (0 < stride) × (klen ≤ stride) × (n * stride ≤ length batch.now) }
    requires t_value { well_ordered stride klen t.now ≡ true }
    ensures { (result ≡ fresh klen (runs n stride 0 batch.now) (recs stride t.now)) × (result ≤ n) }
{
    let mut c = 0;
    for i in 0..n {
        c += lacking(t, stride, klen, record(batch, stride, i));
    }
    c
}

// 1 where none of the n records of the batch from the place `first` on has the key at the place `from`, else 0.
fn lacking_later(
    batch: &[u8],
    stride: usize,
    klen: usize,
    from: usize,
    first: usize,
    n: usize,
) -> usize
    requires { (klen ≤ stride) × (from + stride ≤ length batch.now) × (first + n * stride ≤ length batch.now) }
    ensures { (result ≡ lacks klen (part from stride batch.now) (runs n stride first batch.now)) × (result ≤ 1) }
{
    for i in 0..n {
        if octets::same(batch, from, batch, first + i * stride, klen) {
            return 0;
        }
    }
    1
}

// How many distinct keys of the n records of a batch are not in t, in any order and with repeats.
pub fn count_new(t: &[u8], stride: usize, klen: usize, batch: &[u8], n: usize) -> usize
    requires stride_nonzero { (0 < stride) × (klen ≤ stride) × (n * stride ≤ length batch.now) }
    requires t_value { well_ordered stride klen t.now ≡ true }
    ensures { (result ≡ news klen (runs n stride 0 batch.now) (recs stride t.now)) × (result ≤ n) }
{
    let mut c = 0;
    for i in 0..n {
        let from = i * stride;
        let a = lacking(t, stride, klen, record(batch, stride, i));
        let b = lacking_later(batch, stride, klen, from, from + stride, n - i - 1);
        c += a * b;
    }
    c
}

// Each of the n records of a batch put in, one by one, in any order and with repeats.
pub fn put_all(t: &mut [u8], stride: usize, klen: usize, batch: &[u8], n: usize)
    requires stride_nonzero { (0 < stride) × (klen ≤ stride) × (n * stride ≤ length batch.now) }
    requires t_value { well_ordered stride klen t.old ≡ true }
    requires t_value_2 { fits stride (put_all klen (runs n stride 0 batch.now) (recs stride t.old)) t.old ≡ true }
    ensures { t.new ≡ laid (put_all klen (runs n stride 0 batch.now) (recs stride t.old)) t.old }
{
    for i in 0..n {
        table::put(t, stride, klen, record(batch, stride, i));
    }
}

// The records from q up to i move up by d places; by none, nothing is done.
fn move_records(t: &mut [u8], stride: usize, q: usize, i: usize, d: usize)
    requires { (q ≤ i) × (i + d < 65536) × (2 + (i + d) * stride ≤ length t.old) }
    ensures { t.new ≡ B.put (2 + (q + d) * stride) (part (2 + q * stride) ((i - q) * stride) t.old) t.old }
{
    if d == 0 {
        return;
    }
    octets::move_up(t, 2 + q * stride, d * stride, (i - q) * stride);
}

// The records from q up to i move up by d places, and rec is stored right below them.
fn lift(t: &mut [u8], stride: usize, q: usize, i: usize, d: usize, rec: &[u8])
    requires { (q ≤ i) × (1 ≤ q + d) × (i + d < 65536) × (2 + (i + d) * stride ≤ length t.old) × (length rec.now ≡ stride) }
    ensures { t.new ≡ lifted stride q i d rec.now t.old }
{
    move_records(t, stride, q, i, d);
    octets::store_all(t, 2 + (q + d - 1) * stride, rec);
}

// What a merge from the back has still to do: the table's first `held` records stand as they did, and `fresh` new keys are to come.
#[derive(Clone, Copy)]
pub struct Left {
    pub held: usize,
    pub fresh: usize,
}

// One step of a merge from the back: the records after rec, the next record down, move up to their places, and rec is stored below them.
pub fn merge_next(
    t: &mut [u8],
    stride: usize,
    klen: usize,
    held: usize,
    fresh: usize,
    rec: &[u8],
) -> Left
    requires klen_le_stride { (klen ≤ stride) × (held + fresh < 65536) × (2 + (held + fresh) * stride ≤ length t.old) × (length rec.now ≡ stride) }
    requires t_value { rises klen (runs held stride 2 t.old) ≡ true }
    requires bound { 1 ≤ fresh + hits (spot klen rec.now (runs held stride 2 t.old)) }
    ensures { Merged stride klen held fresh rec.now t.old result.held result.fresh t.new }
{
    match table::find_in(t, stride, klen, held, rec) {
        Ok(i) => {
            lift(t, stride, i + 1, held, fresh, rec);
            Left { held: i, fresh }
        }
        Err(i) => {
            lift(t, stride, i, held, fresh, rec);
            Left {
                held: i,
                fresh: fresh - 1,
            }
        }
    }
}

// The n records of a rising batch put in by one merge from the back; c of their keys are new.
pub fn merge(t: &mut [u8], stride: usize, klen: usize, batch: &[u8], n: usize, c: usize)
    requires stride_nonzero { (0 < stride) × (klen ≤ stride) × (n * stride ≤ length batch.now) }
    requires t_value { well_ordered stride klen t.old ≡ true }
    requires batch_value { rises klen (runs n stride 0 batch.now) ≡ true }
    requires c_value { c ≡ fresh klen (runs n stride 0 batch.now) (recs stride t.old) }
    requires t_value_2 { fits stride (put_all klen (runs n stride 0 batch.now) (recs stride t.old)) t.old ≡ true }
    ensures { t.new ≡ laid (put_all klen (runs n stride 0 batch.now) (recs stride t.old)) t.old }
{
    let count = table::count(t);
    let mut held = count;
    let mut coming = c;
    for i in (0..n).rev() {
        let left = merge_next(t, stride, klen, held, coming, record(batch, stride, i));
        held = left.held;
        coming = left.fresh;
    }
    octets::store16(t, 0, count + c);
}

// The records from place i up to j go, that one not included; those behind them come down in one move.
pub fn remove_run(t: &mut [u8], stride: usize, i: usize, j: usize)
    requires { (i ≤ j) × (j ≤ count_of t.old) × (2 + count_of t.old * stride ≤ length t.old) }
    ensures { t.new ≡ laid (take i (recs stride t.old) ++ drop j (recs stride t.old)) t.old }
{
    let n = table::count(t);
    octets::move_down(t, 2 + i * stride, (j - i) * stride, (n - j) * stride);
    octets::store16(t, 0, n - (j - i));
}
