// The planning of a voice: lane.rs. It is done when a call comes in or a segment ends, and takes a few
// exponentials in binary64; between two such moments a `Segment` has all that drawing needs.
// Where the Rust changes a lane and a segment in place, a `Voice` holds the two and goes in and out
// by value.
#![tactic(auto)]

mod lanes;
mod voices;

pub use lanes::{Lane, Spec, Voice};
pub use timing::{TimeUnit, Timing};
