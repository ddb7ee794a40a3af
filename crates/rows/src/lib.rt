// Rows of levels, drawn from an array of floats that is changed in place: sixteen lanes at a time,
// into floats or straight into bytes; and how many rows are drawn before a voice's segment ends.
#![tactic(auto)]

mod lanes;
mod runs;
mod strides;

pub use lanes::drawing::draw;
pub use lanes::places::Place;
pub use lanes::spare::clear_spare;
pub use runs::{count_down, next_ended, until_end};
pub use strides::groups;
