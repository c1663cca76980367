// Numbers that are kept apart: an LSN, a page number and a page count are one tuple struct each, so that none passes for another.
// Identifiers, commit hashes and the keys of the tables, with their orders; and document 01's refusals.
#![tactic(auto)]

pub mod commit_hash;
pub mod id;
pub mod keys;
pub mod logref;
pub mod lsn;
pub mod page_count;
pub mod pageidx;
pub mod refusal;
