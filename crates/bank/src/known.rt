// What is known of a bank by its calls alone, and what refusals read of it: a list can be checked by
// it before there is a bank.
ghost use Rattle.std.specs.Prelude.{◌≡◌, min};
ghost use Rattle.settings.specs.Refusals as Refusals;
ghost use Rattle.memory.specs.Memory as Memory;
ghost use Rattle.rows.specs.Strides as Strides;
ghost use Rattle.bank.specs.Calls as Calls;

use memory::MAX_VOICES;
use settings::{EnvelopeParams, Refusal};
use timing::Timing;

// How many voices it has.
#[derive(Clone, Copy)]
pub struct Known {
    pub voices: usize,
}

impl Known {
    // Whether a call that names this voice is accepted.
    pub fn check_voice(self, voice: usize) -> Result<(), Refusal>
        ensures { Refusals.number_of result ≡ Calls.voice_refusal self voice 0 }
    {
        if voice < self.voices {
            return Ok(());
        }
        Err(Refusal::NoSuchVoice)
    }
}

// The lanes of a row of so many voices.
pub fn stride_of(voices: usize) -> usize
    ensures { result ≡ Strides.stride_of (min voices Memory.max_voices) }
{
    16 * rows::groups(voices)
}

// Whether a fresh bank of these is accepted.
pub fn check_opening(voices: usize, params: EnvelopeParams, timing: Timing) -> Result<(), Refusal>
    ensures { Refusals.number_of result ≡ Calls.opening_refusal (Calls.opening voices params timing) }
{
    if voices > MAX_VOICES {
        return Err(Refusal::TooManyVoices);
    }
    settings::check_fresh(params, timing)
}
