// What stands between the exported C functions and the calls by value: arguments in bytes become values, and answers become a reply and what is lent for them.
#![tactic(auto)]

pub mod replies;
pub mod sets;
pub mod snapshots;

// Document 01's number, and whether there is an answer under 0: 1 where one was found, or for yes; 0 where there is none, for no, and with every other number.
#[repr(C)]
#[derive(Clone, Copy)]
pub struct Reply {
    pub code: u32,
    pub found: u32,
}
