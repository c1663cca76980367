// Segments and ranges beside plain lists of their pages, sizes and last pages: each call on frames and ranges is compared with what the lists say.
// The lists have no windows, and each place is worked out from the first frame on.
#![tactic(auto)]

pub mod asked;
pub mod joins;
pub mod plain;
