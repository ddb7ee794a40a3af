// The calls and readings of the single envelope. Calls of one shape differ in what they call, not in a type.
ghost use Rattle.std.specs.Prelude.{◌≡◌};
ghost use Rattle.envelope.specs.Envelopes as Envelopes;

use lane::{Lane, Voice};
use settings::{EnvelopeParams, Refusal, Stage, Trigger};
use timing::Timing;

// A voice, and the timing that its counts are made with.
#[derive(Clone, Copy)]
pub struct Envelope {
    pub voice: Voice,
    pub timing: Timing,
}

// One level, and the envelope after it.
#[derive(Clone, Copy)]
pub struct Frame {
    pub level: f32,
    pub envelope: Envelope,
}

impl Envelope {
    // An envelope before its first note. Refused: a sample rate over its limit, then a time over its
    // limit.
    pub fn fresh(params: EnvelopeParams, timing: Timing) -> Result<Self, Refusal>
        ensures { Envelopes.answer_of Envelopes.fallback result ≡ Envelopes.fresh params timing }
    {
        settings::check_fresh(params, timing)?;
        Ok(Self {
            voice: Lane::new(params),
            timing,
        })
    }

    // The idle envelope of AMP and Timing::new(0.0), for a caller to take in a refused one's place.
    pub fn fallback() -> Self
        ensures { result ≡ Envelopes.fallback }
    {
        Self {
            voice: Lane::new(EnvelopeParams::AMP),
            timing: Timing::new(0.0),
        }
    }

    // Other settings, which the next frame already has. Refused: a time over its limit.
    pub fn with_params(self, params: EnvelopeParams) -> Result<Self, Refusal>
        ensures { Envelopes.answer_of self result ≡ Envelopes.set_params params self }
    {
        settings::check_params(params)?;
        Ok(Self {
            voice: self.voice.set_params(self.timing, params),
            ..self
        })
    }

    // Another timing, likewise. Refused: a sample rate over its limit.
    pub fn with_timing(self, timing: Timing) -> Result<Self, Refusal>
        ensures { Envelopes.answer_of self result ≡ Envelopes.set_timing timing self }
    {
        settings::check_timing(timing)?;
        Ok(Self {
            voice: self.voice.replan(timing),
            timing,
        })
    }

    // A note, by its kind of trigger.
    pub fn after_trigger(self, trigger: Trigger) -> Self
        ensures { result ≡ Envelopes.trigger trigger self }
    {
        Self {
            voice: self.voice.trigger(self.timing, trigger),
            ..self
        }
    }

    // The note's end.
    pub fn after_release(self) -> Self
        ensures { result ≡ Envelopes.release self }
    {
        Self {
            voice: self.voice.release(self.timing),
            ..self
        }
    }

    // Idle, with no release before it.
    pub fn after_reset(self) -> Self
        ensures { result ≡ Envelopes.reset self }
    {
        Self {
            voice: self.voice.reset(self.timing),
            ..self
        }
    }

    // The settings that it has.
    pub fn params_now(self) -> EnvelopeParams
        ensures { result ≡ Envelopes.params self }
    {
        self.voice.lane.params
    }

    // The stage that its next level belongs to.
    pub fn stage_now(self) -> Stage
        ensures { result ≡ Envelopes.stage self }
    {
        self.voice.lane.stage
    }

    // What its next frame would hand out.
    pub fn level_now(self) -> f32
        ensures { result ≡ Envelopes.level self }
    {
        self.voice.seg.level()
    }

    // Whether it is in Idle, and its voice free.
    pub fn is_idle_now(self) -> bool
        ensures { result ≡ Envelopes.is_idle self }
    {
        self.stage_now().is_idle()
    }

    // 0 when idle, else the release's count of samples.
    pub fn tail_now(self) -> u64
        ensures { result ≡ Envelopes.tail self }
    {
        self.voice.tail(self.timing)
    }

    // The frames until Sustain, were only frames to follow; 0 in Idle, Sustain and Release.
    pub fn lead_now(self) -> u64
        ensures { result ≡ Envelopes.lead self }
    {
        self.voice.lead(self.timing)
    }
}
