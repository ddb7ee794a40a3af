// A voice changed where it lies: put together from the arrays, changed, and stored.
ghost use Rattle.std.specs.Prelude.{◌≡◌};
ghost use Rattle.settings.specs.Refusals as Refusals;
ghost use Rattle.memory.specs.Memory as Memory;
ghost use Rattle.bank.specs.Parts as Parts;

use crate::banks::check;
use lane::Voice;
use memory::Arrays;
use settings::{EnvelopeParams, Refusal, Trigger};
use timing::Timing;

// What a call, or a segment's end, makes of a voice. No closure, so that one definition says it (`Parts.changed`).
#[derive(Clone, Copy)]
pub(crate) enum Change {
    Params(EnvelopeParams),
    Replan,
    Trigger(Trigger),
    Release,
    Reset,
    // It becomes this voice.
    Join(Voice),
    // It has what follows its segment.
    Follow,
}

fn changed(voice: Voice, timing: Timing, change: Change) -> Voice
    ensures { result ≡ Parts.changed timing change voice }
{
    match change {
        Change::Params(params) => voice.set_params(timing, params),
        Change::Replan => voice.replan(timing),
        Change::Trigger(trigger) => voice.trigger(timing, trigger),
        Change::Release => voice.release(timing),
        Change::Reset => voice.reset(timing),
        Change::Join(from) => from,
        Change::Follow => voice.lane.advance(timing),
    }
}

// The voice v, if there is room for such a voice.
pub(crate) fn change_voice(m: &mut Arrays, v: usize, timing: Timing, change: Change)
    ensures { Memory.Stored v (Parts.changed timing change (Memory.loaded m.old v)) m.old m.new }
{
    m.store(v, changed(m.load(v), timing, change));
}

// The voice v, by a call that is refused if there is no such voice.
pub(crate) fn with(m: &mut Arrays, v: usize, by: Change) -> Result<(), Refusal>
    ensures { Parts.One v (Parts.changed (Memory.timing_at m.old.bends) by) (Refusals.number_of result) m.old m.new }
{
    check(m, v)?;
    let timing = m.timing();
    change_voice(m, v, timing, by);
    Ok(())
}

// Every voice.
pub(crate) fn with_all(m: &mut Arrays, by: Change)
    ensures { Parts.All (Parts.changed (Memory.timing_at m.old.bends) by) m.old m.new }
{
    let timing = m.timing();
    let voices = m.voices();
    for v in 0..voices {
        change_voice(m, v, timing, by);
    }
}
