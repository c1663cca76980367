// Calls 10 to 21: page sets, 385 bytes each.
use crate::record::{read, replied};
use arguments::Reply;
use boundary::sets;
use octets::load32;
use std::io;
use std::io::Read;

// Call 10: the set of a range of pages.
fn range(record: [u8; 395]) -> bool {
    let mut out = [0u8; 385];
    let r = sets::sigatuda_set_range(load32(&record, 0), load32(&record, 4), &mut out);
    record.ends_with(&out) && replied(&record, 8, r)
}

// One of the calls that take a set and a number and write a set.
fn on_number(call: u32, set: &[u8], n: u32, out: &mut [u8]) -> Reply {
    match call {
        11 => sets::sigatuda_set_insert(set, n, out),
        _ => sets::sigatuda_set_truncate(set, n, out),
    }
}

// Calls 11 and 19: an insertion and a truncation.
fn changed(call: u32, record: [u8; 776]) -> bool {
    let mut out = [0u8; 385];
    let r = on_number(call, &record[..385], load32(&record, 385), &mut out);
    record.ends_with(&out) && replied(&record, 389, r)
}

// Call 12: a union.
fn union(record: [u8; 1157]) -> bool {
    let mut out = [0u8; 385];
    let r = sets::sigatuda_set_union(&record[..385], &record[385..770], &mut out);
    record.ends_with(&out) && replied(&record, 770, r)
}

// One of the calls that take a set and write a number.
fn on_set(call: u32, set: &[u8], out: &mut u32) -> Reply {
    match call {
        13 => sets::sigatuda_set_size(set, out),
        14 => sets::sigatuda_set_first(set, out),
        _ => sets::sigatuda_set_last(set, out),
    }
}

// Calls 13 to 15: the size and the ends.
fn measured(call: u32, record: [u8; 391]) -> bool {
    let set = &record[..385];
    let mut out: u32 = 0;
    let r = on_set(call, set, &mut out);
    load32(&record, 387) == out && replied(&record, 385, r)
}

// Call 16: whether a page is in a set.
fn contains(record: [u8; 391]) -> bool {
    let r = sets::sigatuda_set_contains(&record[..385], load32(&record, 385));
    replied(&record, 389, r)
}

// One of the calls that ask a set for a range.
fn on_range(call: u32, set: &[u8], first: u32, last: u32) -> Reply {
    match call {
        17 => sets::sigatuda_set_contains_any(set, first, last),
        _ => sets::sigatuda_set_contains_all(set, first, last),
    }
}

// Calls 17 and 18: whether some page, or each, of a range is in a set.
fn contains_range(call: u32, record: [u8; 395]) -> bool {
    let set = &record[..385];
    let r = on_range(call, set, load32(&record, 385), load32(&record, 389));
    replied(&record, 393, r)
}

// Call 20: the common pages of two sets, and the rest of the left one.
fn cut(record: [u8; 1542]) -> bool {
    let mut common = [0u8; 385];
    let mut rest = [0u8; 385];
    let r = sets::sigatuda_set_cut(&record[..385], &record[385..770], &mut common, &mut rest);
    record[..1157].ends_with(&common) && record.ends_with(&rest) && replied(&record, 770, r)
}

// Call 21: a set without a range of pages.
fn remove(record: [u8; 780]) -> bool {
    let set = &record[..385];
    let first = load32(&record, 385);
    let last = load32(&record, 389);
    let mut out = [0u8; 385];
    let r = sets::sigatuda_set_remove(set, first, last, &mut out);
    record.ends_with(&out) && replied(&record, 393, r)
}

// Whether the next record, of a call on sets, is answered as it was.
pub fn same(call: u32, file: &mut impl Read) -> io::Result<bool> {
    match call {
        10 => Ok(read(file)?.is_some_and(range)),
        11 | 19 => Ok(read(file)?.is_some_and(|record| changed(call, record))),
        12 => Ok(read(file)?.is_some_and(union)),
        16 => Ok(read(file)?.is_some_and(contains)),
        17 | 18 => Ok(read(file)?.is_some_and(|record| contains_range(call, record))),
        20 => Ok(read(file)?.is_some_and(cut)),
        21 => Ok(read(file)?.is_some_and(remove)),
        _ => Ok(read(file)?.is_some_and(|record| measured(call, record))),
    }
}
