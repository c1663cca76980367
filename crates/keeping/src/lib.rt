// T5, the frame theorem, over exported functions: each leaves every record that it does not name. T2 over the same: fresh tables are formed and have an exact index, what is formed stays formed, and the index stays exact. Save is in `demands`.
#![tactic(auto)]

pub mod copycall;
pub mod fresh;
pub mod pagecall;
pub mod pushcall;
pub mod synccall;
pub mod tagcall;
pub mod volumecall;
pub mod writecall;
