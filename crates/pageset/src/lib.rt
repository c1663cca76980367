// Page sets: at most 32 windows of 64 pages each, by value.
// `form` tests a set's form, `sets` works on sets in normal form. The crate `pagecalls` has the calls that answer on every input.
#![tactic(auto)]

pub mod bits;
pub mod form;
pub mod sets;
pub mod walk;

// 64 pages: page p is bit p mod 64 of window p div 64.
#[derive(Clone, Copy)]
pub struct Window {
    pub index: u32,
    pub mask: u64,
}

// The first `len` windows count; those past them are zero.
#[derive(Clone, Copy)]
pub struct PageSet {
    pub len: usize,
    pub windows: [Window; 32],
}

// A set; or the number of a refusal, and the empty set.
#[derive(Clone, Copy)]
pub struct SetAnswer {
    pub code: u32,
    pub set: PageSet,
}

// The common pages of two sets, and the left set without them; or the number of a refusal, and empty sets.
#[derive(Clone, Copy)]
pub struct CutAnswer {
    pub code: u32,
    pub common: PageSet,
    pub left: PageSet,
}
