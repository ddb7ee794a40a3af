// Settings and triggers as a host passes them: numbers, and codes for what has no number.
ghost use Rattle.std.specs.Prelude.{◌≡◌, true, false, ltb, MatchResult};
ghost use Rattle.settings.specs.declared.refusals.Refusal.TheVariants.{UnnamedCode};
ghost use Rattle.memory.specs.Spaced as Spaced;
ghost use Rattle.events.specs.Format as Format;
ghost use Rattle.worfelli.specs.Coded as Coded;

use settings::{EnvelopeParams, Refusal, StealRestart, Trigger, flag_named};
use timing::TimeUnit;

// The settings of these numbers and codes. Refused: 10 a code that names nothing.
// Two arrays, not a struct: no plainer, since what is said of settings here is said of such lists.
pub(crate) fn params(numbers: &[f32; 11], codes: &[u32; 3]) -> Result<EnvelopeParams, Refusal>
    ensures { MatchResult result (λ p. (Coded.named codes.now ≡ true) × (p ≡ Coded.params numbers.now codes.now)) (λ r. (Coded.named codes.now ≡ false) × (r ≡ UnnamedCode)) }
{
    let unit = TimeUnit::try_from(codes[0])?;
    let legato_inverted = flag_named(codes[1])?;
    let steal_restart = StealRestart::try_from(codes[2])?;
    Ok(EnvelopeParams {
        unit,
        delay: numbers[0],
        attack: numbers[1],
        hold: numbers[2],
        decay: numbers[3],
        sustain: numbers[4],
        release: numbers[5],
        attack_curve: numbers[6],
        decay_curve: numbers[7],
        release_curve: numbers[8],
        start: numbers[9],
        end: numbers[10],
        legato_inverted,
        steal_restart,
    })
}

// The settings' numbers and codes.
pub(crate) fn put_params(numbers: &mut [f32; 11], codes: &mut [u32; 3], p: EnvelopeParams)
    ensures numbers { numbers.new ≡ Spaced.puts 1 numbers.old 0 (Coded.numbers_of p) }
    ensures codes { codes.new ≡ Spaced.puts 1 codes.old 0 (Coded.codes_of p) }
{
    numbers[0] = p.delay;
    numbers[1] = p.attack;
    numbers[2] = p.hold;
    numbers[3] = p.decay;
    numbers[4] = p.sustain;
    numbers[5] = p.release;
    numbers[6] = p.attack_curve;
    numbers[7] = p.decay_curve;
    numbers[8] = p.release_curve;
    numbers[9] = p.start;
    numbers[10] = p.end;
    codes[0] = p.unit as u32;
    codes[1] = p.legato_inverted as u32;
    codes[2] = p.steal_restart as u32;
}

// 0 new, 1 retrigger, 2 legato. Refused: 10 another code.
pub(crate) fn trigger(kind: u32) -> Result<Trigger, Refusal>
    ensures { MatchResult result (λ t. (ltb kind 3 ≡ true) × (t ≡ Format.kind kind)) (λ r. (ltb kind 3 ≡ false) × (r ≡ UnnamedCode)) }
{
    Ok(Trigger::try_from(kind)?)
}
