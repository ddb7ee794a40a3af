// A bank, and the test that a voice is there.
ghost use Rattle.std.specs.Prelude.{◌≡◌, ◌≤◌, ◌<◌, MatchResult};
ghost use Rattle.settings.specs.declared.refusals.Refusal.TheVariants.{NoSuchVoice};
ghost use Rattle.memory.specs.Memory as Memory;

use memory::Arrays;
use settings::Refusal;

// Up to 64 voices under one clock. Whatever its numbers are, they are some bank, so that a host can keep
// it as plain data.
#[derive(Clone, Copy)]
#[repr(C)]
pub struct Bank {
    pub arrays: Arrays,
}

impl Bank {
    // A bank of no voices.
    pub const EMPTY: Self = Self {
        arrays: Arrays::ZEROS,
    };
}

// Whether there is such a voice: as `Known::check_voice`, but that says the number, and the calls want the two facts.
pub(crate) fn check(m: &Arrays, v: usize) -> Result<(), Refusal>
    ensures { MatchResult result (λ _. v < Memory.count_of m.now.codes) (λ e. (e ≡ NoSuchVoice) × (Memory.count_of m.now.codes ≤ v)) }
{
    if v < m.voices() {
        return Ok(());
    }
    Err(Refusal::NoSuchVoice)
}
