// From the bytes of a lent table to the rules' table (specs/ and proofs/), once for the six tables; and the check of a table, record by record, once for
// each kind of record whose key is a part of it.
#![tactic(auto)]

ghost use Rattle.std.specs.Prelude.{◌≡◌, ℕ, ◌+◌, ◌<◌, ◌≤◌, Bool, ◌&&◌, List, length};
ghost use Rattle.octets.specs.Bytes.{part};
ghost use Rattle.table.specs.Table.{recs, well_ordered};
ghost use Rattle.rules.specs.Lists.{all};

// A kind of record that a table holds.
pub trait Kind {
    // Whether bytes are a record in form.
    ghost form: { List ℕ → Bool };

    // Whether bytes are a table of such records.
    ghost table: { List ℕ → Bool };

    // A record's number of bytes.
    const SIZE: usize;

    ghost SIZE: { ℕ };

    // How many of them, the first ones, are its key.
    const KEY: usize;

    ghost KEY: { ℕ };

    // Whether the bytes at a place are a record in form.
    fn in_form(s: &[u8], at: usize) -> bool
        requires { at + SIZE ≤ length s.now }
        ensures { result ≡ form (part at SIZE s.now) };

    // Laws: a record has bytes, its key is within it, and a table is what is ordered by its keys and has each record in form.
    ghost sized: { 0 < SIZE };

    ghost short: { KEY ≤ SIZE };

    ghost tests: { (t : List ℕ) → table t ≡ (well_ordered SIZE KEY t && all form (recs SIZE t)) };
}

// Whether bytes are a table of a kind of record: their count, the order of their keys and the form of each (20).
pub fn formed<K: Kind>(t: &[u8]) -> bool
    ensures { result ≡ K.table t.now }
{
    if !table::well_ordered(t, K::SIZE, K::KEY) {
        return false;
    }
    for i in 0..table::count(t) {
        if !K::in_form(t, 2 + i * K::SIZE) {
            return false;
        }
    }
    true
}
