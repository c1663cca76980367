// What writing a commit adds to the index and to the checkpoints. One index entry per page of its set: they are made one at a time, from the set's last page
// down, so that no buffer holds them all. And a checkpoint for each LSN that it lists, at most eight, in any order and with repeats.
#![tactic(auto)]

ghost use Rattle.std.specs.Prelude.{◌≡◌, ◌≤◌, true};
ghost use Rattle.pageset.specs.Sets.{shown, normal};
ghost use Rattle.table.specs.Table.{runs, recs, laid, well_ordered, fits};
ghost use Rattle.batch.specs.Batch.{put_all, news};
ghost use Rattle.indexing.specs.Rows.{with_page, entry_rows, listed, checkpoint_rows};

use basics::id::LogId;
use basics::lsn::Lsn;
use basics::pageidx::PageIdx;
use layout::{CHECKPOINT, ENTRY};
use pageset::{PageSet, Window, sets};

// The index entry of a page, made from that of another.
fn with_page(row: [u8; 29], page: u32) -> [u8; 29]
    ensures { result ≡ with_page row page }
{
    let mut e = row;
    octets::store32(&mut e, 17, page);
    e
}

// How many of the entries have a key that the index t lacks: each is sought below the place of the one before.
pub fn count_entries(t: &[u8], log: LogId, lsn: Lsn, set: PageSet) -> usize
    requires t_value { well_ordered 29 29 t.now ≡ true }
    requires set_value { normal set ≡ true }
    ensures { result ≡ news 29 (entry_rows log lsn.0 (shown set)) (recs 29 t.now) }
{
    let row = entries::entry_key(log, PageIdx(0), lsn);
    let ws = set.windows;
    let mut c: usize = 0;
    let mut held = table::count(t);
    let mut i = set.len;
    let mut w = Window { index: 0, mask: 0 };
    let mut n = sets::cardinality(set).0;
    while 0 < n {
        let step = pagesdown::next_down(i, w, ws[pagesdown::last_place(i)]);
        let e = with_page(row, step.page);
        let passed = batch::lacking_below(t, ENTRY, ENTRY, held, &e);
        c += passed.lacking;
        held = passed.held;
        i = step.windows;
        w = step.rest;
        n -= 1;
    }
    c
}

// The entries put into the index t by one merge from the back; `fresh` of their keys are new.
pub fn put_entries(t: &mut [u8], log: LogId, lsn: Lsn, set: PageSet, fresh: usize)
    requires t_value { well_ordered 29 29 t.old ≡ true }
    requires set_value { normal set ≡ true }
    requires fresh_value { fresh ≡ news 29 (entry_rows log lsn.0 (shown set)) (recs 29 t.old) }
    requires t_value_2 { fits 29 (put_all 29 (entry_rows log lsn.0 (shown set)) (recs 29 t.old)) t.old ≡ true }
    ensures { t.new ≡ laid (put_all 29 (entry_rows log lsn.0 (shown set)) (recs 29 t.old)) t.old }
{
    let row = entries::entry_key(log, PageIdx(0), lsn);
    let ws = set.windows;
    let count = table::count(t);
    let mut held = count;
    let mut coming = fresh;
    let mut i = set.len;
    let mut w = Window { index: 0, mask: 0 };
    let mut n = sets::cardinality(set).0;
    while 0 < n {
        let step = pagesdown::next_down(i, w, ws[pagesdown::last_place(i)]);
        let e = with_page(row, step.page);
        let left = batch::merge_next(t, ENTRY, ENTRY, held, coming, &e);
        held = left.held;
        coming = left.fresh;
        i = step.windows;
        w = step.rest;
        n -= 1;
    }
    octets::store16(t, 0, count + fresh);
}

// The checkpoints at the first n of eight LSNs, one after another.
fn checkpoint_rows(log: LogId, lsns: [Lsn; 8], n: usize) -> [u8; 200]
    requires { n ≤ 8 }
    ensures { runs n 25 0 result ≡ checkpoint_rows log (listed lsns n) }
{
    let mut rows = [0u8; 200];
    for i in 0..n {
        let lsn = lsns[i];
        let k = layout::log_key(log, lsn.0);
        octets::store_all(&mut rows, i * CHECKPOINT, &k);
    }
    rows
}

// How many distinct keys of the checkpoints the table t lacks.
pub fn count_checkpoints(t: &[u8], log: LogId, lsns: [Lsn; 8], n: usize) -> usize
    requires t_value { well_ordered 25 25 t.now ≡ true }
    requires n_bound { n ≤ 8 }
    ensures { result ≡ news 25 (checkpoint_rows log (listed lsns n)) (recs 25 t.now) }
{
    let rows = checkpoint_rows(log, lsns, n);
    batch::count_new(t, CHECKPOINT, CHECKPOINT, &rows, n)
}

// The checkpoints put into the table t.
pub fn put_checkpoints(t: &mut [u8], log: LogId, lsns: [Lsn; 8], n: usize)
    requires t_value { well_ordered 25 25 t.old ≡ true }
    requires n_bound { n ≤ 8 }
    requires t_value_2 { fits 25 (put_all 25 (checkpoint_rows log (listed lsns n)) (recs 25 t.old)) t.old ≡ true }
    ensures { t.new ≡ laid (put_all 25 (checkpoint_rows log (listed lsns n)) (recs 25 t.old)) t.old }
{
    let rows = checkpoint_rows(log, lsns, n);
    batch::put_all(t, CHECKPOINT, CHECKPOINT, &rows, n);
}
