// Curves, straight or bent either way, and the segments in which a stage follows one: what curve.rs
// has, with `Segment` of lane.rs, by value.
#![tactic(auto)]

mod curves;
mod segments;

pub use curves::{MAX_BEND, MAX_SEGMENT, bend, progress, segment, time_at};
pub use segments::{Segment, UNTIMED, level_from, next_u, run_length};
