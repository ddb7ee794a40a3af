// A bank's numbers in four arrays, which its calls are lent and change in place: where each lies, and
// a voice put together from them and stored in them.
#![tactic(auto)]

mod arrays;
mod codes;
mod voices;

pub use arrays::{
    Arrays, BENDS, Bends, CODES, COUNTS, Codes, Counts, FLOATS, Floats, LANES, MAX_VOICES, count,
    put_timing, put_voices,
};
pub use codes::{flag_code, flag_of, restart_code, restart_of, stage_code, unit_code, unit_of};
