// The number helpers of document 01: what the Rust takes from f32, f64 and libm, each one equal to a
// definition of specs/ on every input, NaN and infinities included: in every bit where it is a number.
#![tactic(auto)]

mod bits;
mod conversions;
mod counts;
mod limits;
mod stand_ins;

pub use bits::{f32_from_bits, f32_to_bits, f64_from_bits, f64_to_bits};
pub use conversions::{narrow, of_u64, round_to_u64, widen};
pub use counts::{saturating_add, saturating_sub};
pub use limits::{clamp, max, unit};
pub use stand_ins::{exp, exp_m1, ln_1p, powi};
