// Calls 22 to 26: frames of a segment, 594 bytes, and ranges of one, 417 bytes each.
ghost use Rattle.std.specs.Prelude.{◌≤◌, length};

use crate::record::{read, replied};
use boundary::segments;
use octets::{load32, load64};
use std::io;
use std::io::Read;

// Call 24: the frame of a page.
fn frame(record: [u8; 1017]) -> bool {
    let segment = &record[..594];
    let page = load32(&record, 594);
    let mut out = [0u8; 417];
    let r = segments::sigatuda_frame_of_page(segment, page, &mut out);
    record.ends_with(&out) && replied(&record, 598, r)
}

// Call 26: two ranges joined.
fn join(record: [u8; 1253]) -> bool {
    let mut out = [0u8; 417];
    let r = segments::sigatuda_join(&record[..417], &record[417..834], &mut out);
    record.ends_with(&out) && replied(&record, 834, r)
}

// All frames of a segment, in the places lent, zero before the call.
fn listed(record: &[u8], list: &mut [u8]) -> bool
    requires { 600 ≤ length record.now }
{
    let segment = &record[..594];
    let mut items: u32 = 0;
    let r = segments::sigatuda_frame_list(segment, list, &mut items);
    load32(record, 596) == items && record.ends_with(list) && replied(record, 594, r)
}

// Call 22: all frames of a segment, sixteen places lent.
fn sixteen(record: [u8; 7272]) -> bool {
    listed(&record, &mut [0u8; 6672])
}

// Call 23: all frames of a segment, four places lent.
fn four(record: [u8; 2268]) -> bool {
    listed(&record, &mut [0u8; 1668])
}

// Bytes that tell their place: the pairs 0, 1, 2 and so on, two bytes each.
fn places() -> [u8; 4096] {
    let mut lent = [0u8; 4096];
    let (pairs, _) = lent.as_chunks_mut::<2>();
    for (pair, number) in pairs.iter_mut().zip(0u16..2048) {
        *pair = number.to_be_bytes();
    }
    lent
}

// Whether a part of the lent bytes is the one that starts there and has that length, by what it holds.
fn is_part(lent: &[u8], part: &[u8], start: u64, len: u64) -> bool {
    part.len() as u64 == len
        && lent
            .get(start as usize..)
            .is_some_and(|rest| rest.starts_with(part))
}

// Call 25: the bytes of a page's frame, of as many lent bytes as the record says.
fn bytes(record: [u8; 624]) -> bool {
    let segment = &record[..594];
    let page = load32(&record, 594);
    let all = places();
    let Some(lent) = all.get(..load64(&record, 598) as usize) else {
        return false;
    };
    let mut part = &lent[..0];
    let r = segments::sigatuda_frame_bytes(segment, page, lent, &mut part);
    is_part(lent, part, load64(&record, 608), load64(&record, 616)) && replied(&record, 606, r)
}

// Whether the next record, of a call on segments, is answered as it was.
pub fn same(call: u32, file: &mut impl Read) -> io::Result<bool> {
    match call {
        22 => Ok(read(file)?.is_some_and(sixteen)),
        23 => Ok(read(file)?.is_some_and(four)),
        24 => Ok(read(file)?.is_some_and(frame)),
        25 => Ok(read(file)?.is_some_and(bytes)),
        _ => Ok(read(file)?.is_some_and(join)),
    }
}
