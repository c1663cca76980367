// What the C functions of boundary_c call, under their names: each decodes its arguments, makes the call and encodes the answer. A reply is document 01's number and whether there is an
// answer; what is lent for the answer is written only then.
#![tactic(auto)]

pub mod commitcall;
pub mod copycall;
pub mod forms;
pub mod listcall;
pub mod logs;
pub mod numbers;
pub mod pagecall;
pub mod pushcall;
pub mod savecall;
pub mod searchcall;
pub mod segments;
pub mod sets;
pub mod synccall;
pub mod tables;
pub mod tagcall;
pub mod viewcall;
pub mod volumecall;
pub mod walkcall;
pub mod writecall;
