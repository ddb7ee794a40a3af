// What is done to one voice: notes, changes of settings and timing, frames; and what is read of it.
ghost use Rattle.std.specs.Prelude.{◌≡◌, ◌+◌, ◌-◌};
ghost use Rattle.numbers.specs.Counts.{saturated};
ghost use Rattle.lane.specs.Readings as Readings;
ghost use Rattle.settings.specs.Stages as Stages;
ghost use Rattle.lane.specs.Voices as Voices;

use crate::lanes::{Lane, Voice, join, spec_of};
use curve::{Segment, UNTIMED};
use settings::{EnvelopeParams, Stage, StealRestart, Trigger};
use timing::Timing;

// Samples of the present stage that have passed, where its segment has `left` left: those before its
// curve, if it was replanned, those of the curve before the segment, and those of the segment. What an
// attack left out when it joined its curve counts as passed.
fn elapsed(lane: Lane, left: u32) -> u64
    ensures { result ≡ saturated (saturated ((lane.spec.total - lane.curve_total) + lane.pos) + (lane.seg_len - left)) }
{
    let before = numbers::saturating_sub(lane.spec.total, lane.curve_total);
    let drawn = numbers::saturating_sub(lane.seg_len as u64, left as u64);
    numbers::saturating_add(numbers::saturating_add(before, lane.pos), drawn)
}

// How long the stages before Sustain last, from `first` on, that begins at `first_level`.
fn stages_last(p: EnvelopeParams, timing: Timing, first: Stage, first_level: f32) -> u64
    ensures { result ≡ saturated (Readings.last_from (Stages.timed_stages first) p timing first first_level) }
{
    let mut stage = first;
    let mut level = first_level;
    let mut sum = 0;
    // From stage to stage: nothing is counted, so no range is plainer.
    while !stage.is_untimed() {
        let spec = spec_of(p, stage, timing, level);
        let joined = join(p, stage, level, spec);
        sum = numbers::saturating_add(sum, numbers::saturating_sub(spec.total, joined.pos));
        level = spec.to;
        stage = stage.next();
    }
    sum
}

// The plan under new settings or a new timing. If the present stage has the same count, target and bend
// as before, its segment is kept: cutting it anew would change bits for nothing. A delay's target is the
// level that it began with (`lane.to`), so another start level leaves it alone. Else a timed stage goes
// on from the level that it has, so that nothing jumps. What was drawn of it counts towards its new
// length, and only the rest is on the new curve; if there is no rest, the next stage begins at the new
// target. An untimed stage has no time to change in, and is at its new level with the next frame. The plan
// and its segment come by themselves, since a voice put together for the call would be one copy more.
#[inline(always)]
fn replanned(lane: Lane, seg: Segment, timing: Timing) -> Voice
    ensures { result ≡ Voices.replan timing (record { lane = lane; seg = seg }) }
{
    let stage = lane.stage;
    let spec = spec_of(lane.params, stage, timing, lane.to);
    if spec == lane.spec {
        return Voice { lane, seg };
    }
    if stage.is_untimed() {
        return lane.begin_untimed(stage, spec);
    }
    let elapsed = elapsed(lane, seg.left);
    if elapsed >= spec.total {
        return lane.enter(timing, stage.next(), spec.to);
    }
    lane.begin(stage, spec, seg.level(), spec.total - elapsed, 0)
}

impl Voice {
    // Whether a trigger leaves the running envelope alone: a legato note on a sounding voice goes on with
    // the envelope of the note before it, so that the two have one attack, unless the settings ask for two.
    pub fn leaves_alone(self, trigger: Trigger) -> bool
        ensures { result ≡ Voices.leaves_alone trigger self }
    {
        match trigger {
            Trigger::New | Trigger::Retrigger => false,
            Trigger::Legato => !self.lane.stage.is_idle() && !self.lane.params.legato_inverted,
        }
    }

    // Where a voice restarts on a note that is not new.
    fn restart_level(self) -> f32
        ensures { result ≡ Voices.restart_level self }
    {
        match self.lane.params.steal_restart {
            StealRestart::CurrentLevel if !self.lane.stage.is_idle() => self.seg.level(),
            _ => numbers::unit(self.lane.params.start),
        }
    }

    // The level at which a note begins its delay.
    fn note_level(self, trigger: Trigger) -> f32
        ensures { result ≡ Voices.note_level trigger self }
    {
        match trigger {
            Trigger::New => numbers::unit(self.lane.params.start),
            Trigger::Retrigger | Trigger::Legato => self.restart_level(),
        }
    }

    // A note: the stages from Delay on, unless the trigger leaves a sounding voice alone.
    pub fn trigger(self, timing: Timing, trigger: Trigger) -> Voice
        ensures { result ≡ Voices.trigger timing trigger self }
    {
        if self.leaves_alone(trigger) {
            return self;
        }
        let level = self.note_level(trigger);
        self.lane.enter(timing, Stage::Delay, level)
    }

    // The note's end: Release, from wherever the voice is. In Release or Idle it has ended already.
    pub fn release(self, timing: Timing) -> Voice
        ensures { result ≡ Voices.release timing self }
    {
        // The lane by itself: taken from the voice after the test it is copied once more.
        let lane = self.lane;
        if lane.stage.ignores_release() {
            return self;
        }
        lane.enter(timing, Stage::Release, self.seg.level())
    }

    // Idle with no release before it; Idle does not ask for the level that is handed to `enter`.
    pub fn reset(self, timing: Timing) -> Voice
        ensures { result ≡ Voices.reset timing self }
    {
        self.lane.enter(timing, Stage::Idle, 0.0)
    }

    // The same voice under a timing that may be new.
    pub fn replan(self, timing: Timing) -> Voice
        ensures { result ≡ Voices.replan timing self }
    {
        replanned(self.lane, self.seg, timing)
    }

    // The same voice with other settings.
    pub fn set_params(self, timing: Timing, params: EnvelopeParams) -> Voice
        ensures { result ≡ Voices.set_params timing params self }
    {
        let lane = Lane {
            params,
            ..self.lane
        };
        replanned(lane, self.seg, timing)
    }

    // The segment one sample on, with `left` left.
    fn stepped(self, left: u32) -> Voice
        ensures { result ≡ record { lane = self.lane; seg = Voices.stepped self.seg left } }
    {
        let u = curve::next_u(self.seg.u, self.seg.r, self.seg.d);
        let seg = Segment {
            u,
            left,
            ..self.seg
        };
        Voice { seg, ..self }
    }

    // One frame passes.
    pub fn frame(self, timing: Timing) -> Voice
        ensures { result ≡ Voices.frame timing self }
    {
        let left = self.seg.left;
        if left == UNTIMED {
            return self.stepped(left);
        }
        if left <= 1 {
            return self.lane.advance(timing);
        }
        self.stepped(left - 1)
    }

    // 0 when Idle, else the release count.
    pub fn tail(self, timing: Timing) -> u64
        ensures { result ≡ Readings.tail timing self }
    {
        let params = self.lane.params;
        if self.lane.stage.is_idle() {
            0
        } else {
            timing.samples(params.release, params.unit)
        }
    }

    // The frames until Sustain, were only frames to follow; 0 in Idle, Sustain and Release.
    pub fn lead(self, timing: Timing) -> u64
        ensures { result ≡ Readings.lead timing self }
    {
        let lane = self.lane;
        if !lane.stage.is_before_sustain() {
            return 0;
        }
        let drawn = numbers::saturating_sub(lane.curve_total, lane.pos);
        let rest = numbers::saturating_sub(drawn, lane.seg_len as u64);
        let present = numbers::saturating_add(rest, self.seg.left as u64);
        numbers::saturating_add(
            present,
            stages_last(lane.params, timing, lane.stage.next(), lane.to),
        )
    }
}
