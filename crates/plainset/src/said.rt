// Answers in one form, so that two answers are compared by `==`: the calls' answers, and the answers that a list of pages gives. A refusal is an error that holds its number.
use crate::naive;
use basics::page_count::PageCount;
use basics::pageidx::PageIdx;
use basics::refusal::Refusal;

// A call's answer, whatever it holds.
pub fn told<A>(a: Result<A, Refusal>) -> Result<A, u32> {
    match a {
        Err(refusal) => Err(refusal.number()),
        Ok(answer) => Ok(answer),
    }
}

// A call's yes or no.
pub fn yes(a: Result<bool, Refusal>) -> Result<bool, u32> {
    told(a)
}

// A call's page, or none.
pub fn page(a: Result<Option<PageIdx>, Refusal>) -> Result<Option<u32>, u32> {
    match a {
        Err(refusal) => Err(refusal.number()),
        Ok(Some(p)) => Ok(Some(p.0)),
        Ok(None) => Ok(None),
    }
}

// A call's count.
pub fn count(a: Result<PageCount, Refusal>) -> Result<u64, u32> {
    match a {
        Err(refusal) => Err(refusal.number()),
        Ok(n) => Ok(u64::from(n.0)),
    }
}

// The number that a range of pages earns, or 0.
pub fn range_fault(a: u32, b: u32) -> u32 {
    if a == 0 || b == 0 {
        return 1;
    }
    if b < a { 2 } else { 0 }
}

// Whether a list has page p.
pub fn contains(list: &[u32], p: u32) -> Result<bool, u32> {
    if p == 0 {
        return Err(1);
    }
    Ok(naive::has(list, p))
}

// Whether a list has some page from a to b.
pub fn contains_any(list: &[u32], a: u32, b: u32) -> Result<bool, u32> {
    match range_fault(a, b) {
        0 => Ok(naive::count_within(list, a, b) != 0),
        fault => Err(fault),
    }
}

// Whether a list has each page from a to b.
pub fn contains_all(list: &[u32], a: u32, b: u32) -> Result<bool, u32> {
    match range_fault(a, b) {
        0 => Ok(naive::count_within(list, a, b) == naive::span(a, b)),
        fault => Err(fault),
    }
}
