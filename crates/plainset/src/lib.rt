// A set beside a plain list of its pages: each call on the set is compared with what the list says. The list has no windows and no masks.
#![tactic(auto)]

pub mod held;
pub mod naive;
pub mod random;
pub mod said;
pub mod tally;
