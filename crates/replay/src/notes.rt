// A note on an envelope in a local that is lent to one call after the other, as a user of the Rust
// writes it.
ghost use Rattle.std.specs.Prelude.{◌≡◌, length};
ghost use Rattle.replay.specs.Notes as Notes;

use envelope::Envelope;
use settings::{EnvelopeParams, Refusal, Trigger};
use timing::Timing;

// What the calls of a note answer, and the envelope after them.
#[derive(Clone, Copy)]
pub(crate) struct Note {
    pub params: Result<(), Refusal>,
    pub timing: Result<(), Refusal>,
    pub level: f32,
    pub envelope: Envelope,
}

// A voice is taken over: it is silenced, its key goes down and is held for a block; the settings and
// the timing change, a level is drawn by itself, and the key goes up.
pub(crate) fn played(
    envelope: Envelope,
    trigger: Trigger,
    block: &mut [f32],
    params: EnvelopeParams,
    timing: Timing,
) -> Note
    ensures block { block.new ≡ Notes.levels envelope trigger (length block.old) }
    ensures note { Notes.seen result ≡ Notes.note envelope trigger (length block.old) params timing }
{
    let mut e = envelope;
    e.reset();
    e.trigger(trigger);
    e.process(block);
    let params = e.set_params(params);
    let timing = e.set_timing(timing);
    let level = e.next_level();
    e.release();
    Note {
        params,
        timing,
        level,
        envelope: e,
    }
}
