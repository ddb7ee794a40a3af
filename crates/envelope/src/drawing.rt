// Frames: the next level, and a block of levels drawn run by run, a run lying within one segment.
ghost use Rattle.std.specs.Prelude.{◌≡◌, ◌≤◌, length, get_or, EachIndex};
ghost use Rattle.std.specs.Float.{nan};
ghost use Rattle.curve.specs.Segments as Segments;
ghost use Rattle.lane.specs.Voices as Voices;
ghost use Rattle.envelope.specs.Envelopes as Envelopes;
ghost use Rattle.envelope.specs.Parts as Parts;

use crate::envelopes::{Envelope, Frame};
use curve::{Segment, UNTIMED};
use lane::Voice;
use timing::Timing;

// Writes a segment's next levels, and answers the u after them.
fn draw(out: &mut [f32], seg: Segment) -> f32
    ensures levels { EachIndex out.new (λ k. get_or out.new k nan ≡ Parts.level_after seg k) }
    ensures moved { result ≡ Segments.u_after (length out.old) seg.u seg.r seg.d }
{
    let mut u = seg.u;
    for level in out {
        *level = curve::level_from(u, seg.scale, seg.base);
        u = curve::next_u(u, seg.r, seg.d);
    }
    u
}

// The voice after `run` frames within its segment, the last of which left u.
#[tactic(auto, using(crate::proofs::Runs::after_run))]
fn passed(voice: Voice, timing: Timing, run: usize, u: f32) -> Voice
    requires some { 1 ≤ run }
    requires inside { Segments.Inside run voice.seg.left }
    requires moved { u ≡ Segments.u_after run voice.seg.u voice.seg.r voice.seg.d }
    ensures { result ≡ Voices.frames run timing voice }
{
    let left = voice.seg.left;
    let mut next = voice;
    next.seg.u = u;
    if left == UNTIMED {
        return next;
    }
    if run < left as usize {
        next.seg.left = left - run as u32;
        return next;
    }
    voice.lane.advance(timing)
}

impl Envelope {
    // Its next level.
    pub fn after_frame(self) -> Frame
        ensures { result ≡ Envelopes.next_level self }
    {
        let level = self.voice.seg.level();
        // In place: by struct update the envelope is copied four times, and a frame takes six times as long.
        let mut envelope = self;
        envelope.voice = self.voice.frame(self.timing);
        Frame { level, envelope }
    }

    // A block: fills `out` with the levels of as many frames, run by run.
    #[tactic(auto, using(crate::proofs::Runs::run_bounds))]
    pub fn after_process(self, out: &mut [f32]) -> Self
        ensures written { out.new ≡ Envelopes.levels (length out.old) self }
        ensures after { result ≡ Envelopes.frames (length out.old) self }
    {
        let mut voice = self.voice;
        // `done` is counted by hand: a rest that split_at_mut hands on loses its tie to `out` in the proof.
        let mut done = 0;
        while done < out.len() {
            let run = curve::run_length(voice.seg.left, out.len() - done);
            let u = draw(&mut out[done..done + run], voice.seg);
            voice = passed(voice, self.timing, run, u);
            done += run;
        }
        Self { voice, ..self }
    }
}
