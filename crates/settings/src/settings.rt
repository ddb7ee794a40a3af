// The settings of an envelope, and the kinds of triggers, as mod.rs has them.
ghost use Rattle.std.specs.Prelude.{◌≡◌};
ghost use Rattle.settings.specs.Settings as Settings;

use timing::TimeUnit;

// Which level a note begins with on a voice that still sounds: the one that it has now, so that
// nothing jumps, or the start level.
#[derive(Clone, Copy)]
pub enum StealRestart {
    CurrentLevel,
    StartLevel,
}

// Kinds of triggers, for the caller to choose from. New begins at the start level, whether the voice
// sounds or not. Retrigger gives a sounding voice another note, from the level that `steal_restart`
// names. Legato changes nothing while the voice sounds, since notes played legato share one attack, or is
// a retrigger if `legato_inverted` is set. On an idle voice all three are the same.
#[derive(Clone, Copy)]
pub enum Trigger {
    New,
    Retrigger,
    Legato,
}

// The times count what `unit` says. The levels and the curves are kept as given, so that a reading has
// what the caller set, and where they are used taken through `numbers::unit`.
#[derive(Clone, Copy)]
pub struct EnvelopeParams {
    pub unit: TimeUnit,
    pub delay: f32,
    pub attack: f32,
    pub hold: f32,
    pub decay: f32,
    pub sustain: f32,
    pub release: f32,
    pub attack_curve: f32,
    pub decay_curve: f32,
    pub release_curve: f32,
    pub start: f32,
    pub end: f32,
    pub legato_inverted: bool,
    pub steal_restart: StealRestart,
}

impl EnvelopeParams {
    // For volumes: at 1 within a millisecond and until the note's end, at 0 within 15 of that.
    pub const AMP: Self = Self {
        unit: TimeUnit::Milliseconds,
        delay: 0.0,
        attack: 1.0,
        hold: 0.0,
        decay: 1000.0,
        sustain: 1.0,
        release: 15.0,
        attack_curve: 0.5,
        decay_curve: 0.666,
        release_curve: 0.666,
        start: 0.0,
        end: 0.0,
        legato_inverted: false,
        steal_restart: StealRestart::CurrentLevel,
    };

    // For modulation: a sounding voice restarts at the start level, and attacks take half the time.
    pub const MODULATION: Self = Self {
        attack: 0.5,
        steal_restart: StealRestart::StartLevel,
        ..Self::AMP
    };

    pub fn modulation() -> Self
        ensures { result ≡ Settings.modulation }
    {
        Self::MODULATION
    }
}

impl Default for EnvelopeParams {
    ghost is_default = { λ p. p ≡ Settings.amp };

    fn default() -> Self {
        Self::AMP
    }
}
