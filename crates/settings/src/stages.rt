// The stages of an envelope.
ghost use Rattle.std.specs.Prelude.{◌≡◌};
ghost use Rattle.settings.specs.Stages as Stages;

// Idle stays at the end level and Sustain at its own, both without a count; Delay stays for a time at
// the level that the note began with, and Hold at 1. Attack goes to 1, Decay to the sustain level and
// Release to the end level, each in its time.
#[derive(Clone, Copy)]
pub enum Stage {
    Idle,
    Delay,
    Attack,
    Hold,
    Decay,
    Sustain,
    Release,
}

impl Stage {
    // What follows when its time is over. Idle and Sustain have no time, and follow themselves.
    pub fn next(self) -> Self
        ensures { result ≡ Stages.next self }
    {
        match self {
            Stage::Idle => Stage::Idle,
            Stage::Delay => Stage::Attack,
            Stage::Attack => Stage::Hold,
            Stage::Hold => Stage::Decay,
            Stage::Decay => Stage::Sustain,
            Stage::Sustain => Stage::Sustain,
            Stage::Release => Stage::Idle,
        }
    }

    // Whether it is untimed: its level stays until a call. Hold is not: it stays at 1 for its time.
    pub fn is_untimed(self) -> bool
        ensures { result ≡ Stages.is_untimed self }
    {
        matches!(self, Stage::Idle | Stage::Sustain)
    }

    // Whether the voice is free.
    pub fn is_idle(self) -> bool
        ensures { result ≡ Stages.is_idle self }
    {
        matches!(self, Stage::Idle)
    }

    // Whether a release changes nothing: it has begun already, or there is no note to end.
    pub fn ignores_release(self) -> bool
        ensures { result ≡ Stages.ignores_release self }
    {
        matches!(self, Stage::Idle | Stage::Release)
    }

    // Whether Sustain is still to come.
    pub fn is_before_sustain(self) -> bool
        ensures { result ≡ Stages.is_before_sustain self }
    {
        matches!(
            self,
            Stage::Delay | Stage::Attack | Stage::Hold | Stage::Decay
        )
    }
}
