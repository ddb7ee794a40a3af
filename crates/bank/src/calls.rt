// The calls that change voices: settings, timing, notes, a voice that joins another. A refused one
// leaves every number as it was.
ghost use Rattle.std.specs.Prelude.{◌≡◌};
ghost use Rattle.settings.specs.Refusals as Refusals;
ghost use Rattle.bank.specs.Banks as Banks;
ghost use Rattle.bank.specs.Calls.{Call};
ghost use Rattle.bank.specs.Lent as Lent;

use crate::banks::{Bank, check};
use crate::changes::{Change, with, with_all};
use memory::put_timing;
use settings::{EnvelopeParams, Refusal, Trigger, check_params, check_timing};
use timing::Timing;

impl Bank {
    // Other settings for a voice, which its next frame already has. Refused: 2 no such voice, 3 a time
    // over its limit.
    pub fn set_params(&mut self, voice: usize, params: EnvelopeParams) -> Result<(), Refusal>
        ensures refusal { Refusals.number_of result ≡ (Banks.answer (Banks.bank_of self.old.arrays) (Call.set_params voice params)).refusal }
        ensures bank { Banks.bank_of self.new.arrays ≡ (Banks.answer (Banks.bank_of self.old.arrays) (Call.set_params voice params)).bank }
        ensures kept { Lent.Kept (Refusals.number_of result) self.old.arrays self.new.arrays }
    {
        check(&self.arrays, voice)?;
        check_params(params)?;
        with(&mut self.arrays, voice, Change::Params(params))
    }

    // The same for all voices. Refused: 3 a time over its limit.
    pub fn set_all_params(&mut self, params: EnvelopeParams) -> Result<(), Refusal>
        ensures refusal { Refusals.number_of result ≡ (Banks.answer (Banks.bank_of self.old.arrays) (Call.set_all_params params)).refusal }
        ensures bank { Banks.bank_of self.new.arrays ≡ (Banks.answer (Banks.bank_of self.old.arrays) (Call.set_all_params params)).bank }
        ensures kept { Lent.Kept (Refusals.number_of result) self.old.arrays self.new.arrays }
    {
        check_params(params)?;
        with_all(&mut self.arrays, Change::Params(params));
        Ok(())
    }

    // Another timing, by which every voice is replanned. Refused: 4 a sample rate over its limit.
    pub fn set_timing(&mut self, timing: Timing) -> Result<(), Refusal>
        ensures refusal { Refusals.number_of result ≡ (Banks.answer (Banks.bank_of self.old.arrays) (Call.set_timing timing)).refusal }
        ensures bank { Banks.bank_of self.new.arrays ≡ (Banks.answer (Banks.bank_of self.old.arrays) (Call.set_timing timing)).bank }
        ensures kept { Lent.Kept (Refusals.number_of result) self.old.arrays self.new.arrays }
    {
        check_timing(timing)?;
        put_timing(&mut self.arrays.bends, timing);
        with_all(&mut self.arrays, Change::Replan);
        Ok(())
    }

    // A note for a voice, by its kind of trigger. Refused, as the three calls below: 2 no such voice.
    pub fn trigger(&mut self, voice: usize, trigger: Trigger) -> Result<(), Refusal>
        ensures refusal { Refusals.number_of result ≡ (Banks.answer (Banks.bank_of self.old.arrays) (Call.trigger voice trigger)).refusal }
        ensures bank { Banks.bank_of self.new.arrays ≡ (Banks.answer (Banks.bank_of self.old.arrays) (Call.trigger voice trigger)).bank }
        ensures kept { Lent.Kept (Refusals.number_of result) self.old.arrays self.new.arrays }
    {
        with(&mut self.arrays, voice, Change::Trigger(trigger))
    }

    // The end of a voice's note.
    pub fn release(&mut self, voice: usize) -> Result<(), Refusal>
        ensures refusal { Refusals.number_of result ≡ (Banks.answer (Banks.bank_of self.old.arrays) (Call.release voice)).refusal }
        ensures bank { Banks.bank_of self.new.arrays ≡ (Banks.answer (Banks.bank_of self.old.arrays) (Call.release voice)).bank }
        ensures kept { Lent.Kept (Refusals.number_of result) self.old.arrays self.new.arrays }
    {
        with(&mut self.arrays, voice, Change::Release)
    }

    // Idle for a voice, with no release before it.
    pub fn reset(&mut self, voice: usize) -> Result<(), Refusal>
        ensures refusal { Refusals.number_of result ≡ (Banks.answer (Banks.bank_of self.old.arrays) (Call.reset voice)).refusal }
        ensures bank { Banks.bank_of self.new.arrays ≡ (Banks.answer (Banks.bank_of self.old.arrays) (Call.reset voice)).bank }
        ensures kept { Lent.Kept (Refusals.number_of result) self.old.arrays self.new.arrays }
    {
        with(&mut self.arrays, voice, Change::Reset)
    }

    // `voice` becomes a copy of `from`, settings included, and both give the same levels until a call
    // changes one of them. In paraphonic play, where notes share an envelope, a legato note enters in
    // this way.
    pub fn join(&mut self, voice: usize, from: usize) -> Result<(), Refusal>
        ensures refusal { Refusals.number_of result ≡ (Banks.answer (Banks.bank_of self.old.arrays) (Call.join voice from)).refusal }
        ensures bank { Banks.bank_of self.new.arrays ≡ (Banks.answer (Banks.bank_of self.old.arrays) (Call.join voice from)).bank }
        ensures kept { Lent.Kept (Refusals.number_of result) self.old.arrays self.new.arrays }
    {
        check(&self.arrays, from)?;
        let source = self.arrays.load(from);
        with(&mut self.arrays, voice, Change::Join(source))
    }
}
