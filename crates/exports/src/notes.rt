// A note of the single envelope by plain numbers, as C passes them: planned and drawn in one call.
ghost use Rattle.std.specs.Prelude.{◌≡◌, length};
ghost use Rattle.timing.specs.Clock as Timings;
ghost use Rattle.settings.specs.declared.settings.Trigger.TheVariants.{New};
ghost use Rattle.envelope.specs.Envelopes as Envelopes;
ghost use Rattle.exports.specs.Note as Note;

use envelope::Envelope;
use settings::{EnvelopeParams, Trigger, number_of};
use timing::Timing;

// AMP with another attack, decay and sustain.
fn settings(attack: f32, decay: f32, sustain: f32) -> EnvelopeParams
    ensures { result ≡ Note.settings attack decay sustain }
{
    EnvelopeParams {
        attack,
        decay,
        sustain,
        ..EnvelopeParams::AMP
    }
}

// The first levels of a new note on a fresh envelope of these settings. Answers the fresh call's refusal;
// refused, the note is played on the fallback.
#[unsafe(no_mangle)]
pub extern "C" fn worfelli_note(
    sample_rate: f64,
    attack: f32,
    decay: f32,
    sustain: f32,
    out: &mut [f32],
) -> u32
    ensures refusal { result ≡ (Envelopes.fresh (Note.settings attack decay sustain) (Timings.new sample_rate)).refusal }
    ensures written { out.new ≡ Envelopes.levels (length out.old) (Envelopes.trigger New (Envelopes.fresh (Note.settings attack decay sustain) (Timings.new sample_rate)).envelope) }
{
    let params = settings(attack, decay, sustain);
    let answer = Envelope::fresh(params, Timing::new(sample_rate));
    answer
        .unwrap_or(Envelope::fallback())
        .after_trigger(Trigger::New)
        .after_process(out);
    number_of(answer)
}
