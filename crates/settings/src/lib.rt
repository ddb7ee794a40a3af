// An envelope's settings and stages, as mod.rs has them, and the limits that document 01 adds.
#![tactic(auto)]

mod codes;
mod refusals;
mod settings;
mod stages;

pub use codes::flag_named;
pub use refusals::{
    MAX_SAMPLE_RATE, MAX_TIME, Refusal, check_fresh, check_params, check_timing, number_of,
};
pub use settings::{EnvelopeParams, StealRestart, Trigger};
pub use stages::Stage;
