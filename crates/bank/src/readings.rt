// What is read of the bank, and of one of its voices. Refused, where a voice is named: 2 no such voice.
// The readings of a voice differ in what they read, not in a type: one over a closure would be as many lines.
ghost use Rattle.std.specs.Prelude.{◌≡◌};
ghost use Rattle.rows.specs.Strides as Strides;
ghost use Rattle.bank.specs.Banks as Banks;
ghost use Rattle.bank.specs.Calls.{Call, Query};
ghost use Rattle.bank.specs.Replies as Replies;
ghost use Rattle.bank.specs.Replies.{Reply};

use crate::banks::{Bank, check};
use settings::{EnvelopeParams, Refusal, Stage};

impl Bank {
    // The bank's voice count.
    pub fn voices(&self) -> usize
        ensures { result ≡ Banks.size (Banks.bank_of self.now.arrays) }
    {
        self.arrays.voices()
    }

    // How many levels a frame takes of an output of `process`.
    pub fn stride(&self) -> usize
        ensures { result ≡ Strides.stride_of (Banks.size (Banks.bank_of self.now.arrays)) }
    {
        16 * rows::groups(self.arrays.voices())
    }

    // The settings that a voice has.
    pub fn params(&self, voice: usize) -> Result<EnvelopeParams, Refusal>
        ensures { Replies.of_reading Reply.params result ≡ Replies.reply (Banks.bank_of self.now.arrays) (Call.ask (Query.params voice)) }
    {
        check(&self.arrays, voice)?;
        Ok(self.arrays.params(voice))
    }

    // The stage that a voice's next level belongs to.
    pub fn stage(&self, voice: usize) -> Result<Stage, Refusal>
        ensures { Replies.of_reading Reply.stage result ≡ Replies.reply (Banks.bank_of self.now.arrays) (Call.ask (Query.stage voice)) }
    {
        check(&self.arrays, voice)?;
        Ok(self.arrays.stage(voice))
    }

    // What the next frame would hand out of a voice.
    pub fn level(&self, voice: usize) -> Result<f32, Refusal>
        ensures { Replies.of_reading Reply.level result ≡ Replies.reply (Banks.bank_of self.now.arrays) (Call.ask (Query.level voice)) }
    {
        check(&self.arrays, voice)?;
        Ok(self.arrays.segment(voice).level())
    }

    // Whether a voice is in Idle.
    pub fn is_idle(&self, voice: usize) -> Result<bool, Refusal>
        ensures { Replies.of_reading Reply.is_idle result ≡ Replies.reply (Banks.bank_of self.now.arrays) (Call.ask (Query.is_idle voice)) }
    {
        check(&self.arrays, voice)?;
        Ok(self.arrays.stage(voice).is_idle())
    }

    // 0 when a voice is idle, else its release's count of samples.
    pub fn tail(&self, voice: usize) -> Result<u64, Refusal>
        ensures { Replies.of_reading Reply.count result ≡ Replies.reply (Banks.bank_of self.now.arrays) (Call.ask (Query.tail voice)) }
    {
        check(&self.arrays, voice)?;
        Ok(self.arrays.load(voice).tail(self.arrays.timing()))
    }

    // The frames until a voice's Sustain, were only frames to follow; 0 in Idle, Sustain and Release.
    pub fn lead(&self, voice: usize) -> Result<u64, Refusal>
        ensures { Replies.of_reading Reply.count result ≡ Replies.reply (Banks.bank_of self.now.arrays) (Call.ask (Query.lead voice)) }
    {
        check(&self.arrays, voice)?;
        Ok(self.arrays.load(voice).lead(self.arrays.timing()))
    }
}
