// The envelope lent, and changed in place: mod.rs's methods under their names and in their order, then the
// readings that document 01 adds. Each reads the envelope through the reference, makes the call by value,
// whose statement says what it does, and stores the envelope after it. Each calls a method of its own, so one
// generic function would not replace them.
ghost use Rattle.std.specs.Prelude.{◌≡◌, length};
ghost use Rattle.settings.specs.Refusals as Refusals;
ghost use Rattle.envelope.specs.Envelopes as Envelopes;

use crate::envelopes::Envelope;
use settings::{EnvelopeParams, Refusal, Stage, Trigger};
use timing::Timing;

impl Envelope {
    pub fn params(&self) -> EnvelopeParams
        ensures { result ≡ Envelopes.params self.now }
    {
        self.params_now()
    }

    // Refused, nothing changes: a time over its limit.
    pub fn set_params(&mut self, params: EnvelopeParams) -> Result<(), Refusal>
        ensures answer { Refusals.number_of result ≡ (Envelopes.set_params params self.old).refusal }
        ensures after { self.new ≡ (Envelopes.set_params params self.old).envelope }
    {
        *self = self.with_params(params)?;
        Ok(())
    }

    // Refused, nothing changes: a sample rate over its limit.
    pub fn set_timing(&mut self, timing: Timing) -> Result<(), Refusal>
        ensures answer { Refusals.number_of result ≡ (Envelopes.set_timing timing self.old).refusal }
        ensures after { self.new ≡ (Envelopes.set_timing timing self.old).envelope }
    {
        *self = self.with_timing(timing)?;
        Ok(())
    }

    pub fn trigger(&mut self, trigger: Trigger)
        ensures { self.new ≡ Envelopes.trigger trigger self.old }
    {
        *self = self.after_trigger(trigger);
    }

    pub fn release(&mut self)
        ensures { self.new ≡ Envelopes.release self.old }
    {
        *self = self.after_release();
    }

    pub fn reset(&mut self)
        ensures { self.new ≡ Envelopes.reset self.old }
    {
        *self = self.after_reset();
    }

    pub fn stage(&self) -> Stage
        ensures { result ≡ Envelopes.stage self.now }
    {
        self.stage_now()
    }

    pub fn level(&self) -> f32
        ensures { result ≡ Envelopes.level self.now }
    {
        self.level_now()
    }

    pub fn is_idle(&self) -> bool
        ensures { result ≡ Envelopes.is_idle self.now }
    {
        self.is_idle_now()
    }

    pub fn process(&mut self, out: &mut [f32])
        ensures written { out.new ≡ Envelopes.levels (length out.old) self.old }
        ensures after { self.new ≡ Envelopes.frames (length out.old) self.old }
    {
        *self = self.after_process(out);
    }

    pub fn next_level(&mut self) -> f32
        ensures answer { result ≡ (Envelopes.next_level self.old).level }
        ensures after { self.new ≡ (Envelopes.next_level self.old).envelope }
    {
        let frame = self.after_frame();
        *self = frame.envelope;
        frame.level
    }

    pub fn tail(&self) -> u64
        ensures { result ≡ Envelopes.tail self.now }
    {
        self.tail_now()
    }

    pub fn lead(&self) -> u64
        ensures { result ≡ Envelopes.lead self.now }
    {
        self.lead_now()
    }
}
