// Calls 27 to 30: what changed in a log, and snapshots, 262 bytes each.
use crate::record::{read, replied};
use boundary::logs;
use octets::{load_id, load32, load64};
use std::io;
use std::io::Read;

// Call 27: the LSNs above a base up to a head.
fn changes(record: [u8; 42]) -> bool {
    let base = load64(&record, 4);
    let head = load64(&record, 16);
    let mut start: u64 = 0;
    let mut end: u64 = 0;
    let r = logs::sigatuda_changes(
        load32(&record, 0),
        base,
        load32(&record, 12),
        head,
        &mut start,
        &mut end,
    );
    load64(&record, 26) == start && load64(&record, 34) == end && replied(&record, 24, r)
}

// Call 28: a snapshot of one range of a log.
fn new(record: [u8; 300]) -> bool {
    let log = load_id(&record, 0);
    let start = load64(&record, 16);
    let end = load64(&record, 24);
    let count = load32(&record, 32);
    let mut out = [0u8; 262];
    let r = logs::sigatuda_snapshot_new(&log, start, end, count, &mut out);
    record.ends_with(&out) && replied(&record, 36, r)
}

// Call 29: a snapshot with a range more.
fn append(record: [u8; 558]) -> bool {
    let snapshot = &record[..262];
    let log = load_id(&record, 262);
    let start = load64(&record, 278);
    let end = load64(&record, 286);
    let mut out = [0u8; 262];
    let r = logs::sigatuda_snapshot_append(snapshot, &log, start, end, &mut out);
    record.ends_with(&out) && replied(&record, 294, r)
}

// Call 30: the log and the LSN at a snapshot's head.
fn head(record: [u8; 288]) -> bool {
    let snapshot = &record[..262];
    let mut log = [0u8; 16];
    let mut lsn: u64 = 0;
    let r = logs::sigatuda_snapshot_head(snapshot, &mut log, &mut lsn);
    load_id(&record, 264) == log && load64(&record, 280) == lsn && replied(&record, 262, r)
}

// Whether the next record, of a call on logs, is answered as it was; no where there is no such call.
pub fn same(call: u32, file: &mut impl Read) -> io::Result<bool> {
    match call {
        27 => Ok(read(file)?.is_some_and(changes)),
        28 => Ok(read(file)?.is_some_and(new)),
        29 => Ok(read(file)?.is_some_and(append)),
        30 => Ok(read(file)?.is_some_and(head)),
        _ => Ok(false),
    }
}
