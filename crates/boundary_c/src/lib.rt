// The exported C functions, as the archive's symbols: each is the call of that name in the crate boundary, with the same contract. A static library alone
// is no library for other crates, so the calls themselves, on which theorems stand, are in boundary.
#![tactic(auto)]

pub mod commitcall;
pub mod copycall;
pub mod forms;
pub mod listcall;
pub mod logs;
pub mod numbers;
pub mod pagecall;
pub mod pushcall;
pub mod savecall;
pub mod searchcall;
pub mod segments;
pub mod sets;
pub mod synccall;
pub mod tables;
pub mod tagcall;
pub mod viewcall;
pub mod volumecall;
pub mod walkcall;
pub mod writecall;
