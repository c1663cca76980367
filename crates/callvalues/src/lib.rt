// What the calls of a call list are handed and leave: identifiers, page sets and commits made from a line's values, the slots that hold snapshots, and the bytes of a line as they are kept.
#![tactic(auto)]

pub mod lines;
pub mod made;
pub mod slots;
