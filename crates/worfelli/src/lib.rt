// Worfelli for hosts in C and in Rust: a live bank in the host's memory, and whole lists. Each
// function hands what it is given to the bank, the check or the player; include/worfelli.h has their C side.
#![tactic(auto)]

mod apart;
mod calls;
mod coded;
mod layout;
mod lists;
mod readings;
