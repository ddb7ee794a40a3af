// The bank: up to 64 voices under one clock, in four arrays of numbers that its calls change in place.
#![tactic(auto)]

mod banks;
mod blocks;
mod calls;
mod changes;
mod chords;
mod known;
mod opening;
mod readings;

pub use banks::Bank;
pub use known::{Known, check_opening, stride_of};
