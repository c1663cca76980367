// "A refusal gives its number, no value, and leaves all lent memory as found, save Recover's 8": for each exported function that may change a table, one of the same name that makes the call, on every input, and
// has that sentence as its contract. Those that are lent only a place or a list to write are in `placerefusals`.
#![tactic(auto)]

pub mod copycall;
pub mod pagecall;
pub mod pushcall;
pub mod savecall;
pub mod synccall;
pub mod tagcall;
pub mod volumecall;
pub mod writecall;
