// Calls 1 to 9: LSNs, pages and counts.
use crate::record::{read, replied};
use arguments::Reply;
use boundary::numbers;
use octets::{load32, load64};
use std::io;
use std::io::Read;

// One of the calls on an LSN.
fn on_lsn(call: u32, n: u64, out: &mut u64) -> Reply {
    match call {
        1 => numbers::sigatuda_lsn_next(n, out),
        2 => numbers::sigatuda_lsn_prev(n, out),
        3 => numbers::sigatuda_lsn_saturating_next(n, out),
        _ => numbers::sigatuda_lsn_saturating_prev(n, out),
    }
}

// Calls 1 to 4.
fn lsns(call: u32, record: [u8; 18]) -> bool {
    let mut out: u64 = 0;
    let r = on_lsn(call, load64(&record, 0), &mut out);
    load64(&record, 10) == out && replied(&record, 8, r)
}

// One of the calls on a page or a count.
fn on_page(call: u32, n: u32, out: &mut u32) -> Reply {
    match call {
        5 => numbers::sigatuda_page_next(n, out),
        6 => numbers::sigatuda_page_prev(n, out),
        7 => numbers::sigatuda_count_next(n, out),
        8 => numbers::sigatuda_count_prev(n, out),
        _ => numbers::sigatuda_count_last_page(n, out),
    }
}

// Calls 5 to 9.
fn pages(call: u32, record: [u8; 10]) -> bool {
    let mut out: u32 = 0;
    let r = on_page(call, load32(&record, 0), &mut out);
    load32(&record, 6) == out && replied(&record, 4, r)
}

// Whether the next record, of a call on numbers, is answered as it was.
pub fn same(call: u32, file: &mut impl Read) -> io::Result<bool> {
    match call {
        1..=4 => Ok(read(file)?.is_some_and(|record| lsns(call, record))),
        _ => Ok(read(file)?.is_some_and(|record| pages(call, record))),
    }
}
