// "A refusal gives its number, no value, and leaves all lent memory as found": for each exported function that can refuse and is lent a place or a list to write, but changes no table, one of the same name that makes
// the call, on every input, and has that sentence as its contract.
#![tactic(auto)]

pub mod commitcall;
pub mod listcall;
pub mod logs;
pub mod numbers;
pub mod searchcall;
pub mod segments;
pub mod sets;
pub mod tagcall;
pub mod viewcall;
pub mod volumecall;
pub mod walkcall;
