// One voice's envelope: mod.rs's `Envelope`, with the refusals, tail and lead that document 01 adds. By
// value, calls take the envelope and answer the one after, and readings take it and change nothing;
// in place, the Rust's own methods are lent it.
#![tactic(auto)]

mod drawing;
mod envelopes;
mod in_place;

pub use curve::MAX_BEND;
pub use envelopes::{Envelope, Frame};
pub use timing::{MAX_TIME_SCALE, MIN_TIME_SCALE};
