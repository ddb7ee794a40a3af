// A fresh bank.
ghost use Rattle.std.specs.Prelude.{◌≡◌, ◌≤◌};
ghost use Rattle.settings.specs.Refusals as Refusals;
ghost use Rattle.memory.specs.Memory as Memory;
ghost use Rattle.bank.specs.Banks as Banks;
ghost use Rattle.bank.specs.Calls as Calls;
ghost use Rattle.bank.specs.Lent as Lent;
ghost use Rattle.bank.specs.Parts as Parts;

use crate::banks::Bank;
use crate::known::check_opening;
use lane::{Lane, Voice};
use memory::{Arrays, put_timing, put_voices};
use settings::{EnvelopeParams, Refusal};
use timing::Timing;

// The first `voices` voices become `voice`. As in blocks.rt, `voices` is a plain number, and at most 64.
fn fill(m: &mut Arrays, voices: usize, voice: Voice)
    requires { voices ≤ Memory.max_voices }
    ensures { Parts.Spread (λ _. voice) voices m.old m.new }
{
    for v in 0..voices {
        m.store(v, voice);
    }
}

impl Bank {
    // A bank before its first note, with the same settings for all voices. Refused: 1 over 64 voices, 4 a
    // sample rate over its limit, 3 a time over its limit; it is then the bank of no voices, AMP and
    // Timing::new(0.0).
    pub fn open(
        &mut self,
        voices: usize,
        params: EnvelopeParams,
        timing: Timing,
    ) -> Result<(), Refusal>
        ensures refusal { Refusals.number_of result ≡ (Banks.new (Calls.opening voices params timing)).refusal }
        ensures bank { Banks.bank_of self.new.arrays ≡ (Banks.new (Calls.opening voices params timing)).bank }
        ensures kept { Lent.KeptFrom (Calls.opened (Calls.opening voices params timing)).voices self.old.arrays self.new.arrays }
    {
        if let Err(refusal) = check_opening(voices, params, timing) {
            put_voices(&mut self.arrays.codes, 0);
            put_timing(&mut self.arrays.bends, Timing::new(0.0));
            return Err(refusal);
        }
        put_voices(&mut self.arrays.codes, voices);
        put_timing(&mut self.arrays.bends, timing);
        fill(&mut self.arrays, voices, Lane::new(params));
        Ok(())
    }
}
