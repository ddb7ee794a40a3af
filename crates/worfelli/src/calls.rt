// A live bank's calls: the bank's own, with settings and kinds of trigger as numbers and codes.
ghost use Rattle.std.specs.Prelude.{◌≡◌, ltb, length};
ghost use Rattle.bank.specs.Banks as Banks;
ghost use Rattle.bank.specs.Calls as Calls;
ghost use Rattle.bank.specs.Calls.{Call};
ghost use Rattle.bank.specs.Lent as Lent;
ghost use Rattle.events.specs.Format as Format;
ghost use Rattle.worfelli.specs.Coded as Coded;
ghost use Rattle.worfelli.specs.Live as Live;

use crate::coded;
use bank::Bank;
use settings::{EnvelopeParams, number_of};
use timing::Timing;

// Three numbers, not a struct: no plainer, since C's would be turned into this one field by field.
fn timing_of(sample_rate: f64, tempo: f64, scale: f64) -> Timing
    ensures { result ≡ Live.timing sample_rate tempo scale }
{
    Timing {
        sample_rate,
        tempo,
        scale,
    }
}

// A fresh bank. Refused: 10 an unnamed code, then by the bank's numbers; the arrays then hold the bank
// of no voices, AMP and Timing::new(0.0).
#[unsafe(no_mangle)]
pub extern "C" fn worfelli_struct_open(
    bank: &mut Bank,
    voices: usize,
    numbers: &[f32; 11],
    codes: &[u32; 3],
    sample_rate: f64,
    tempo: f64,
    scale: f64,
) -> u32
    ensures refusal { result ≡ Live.opening_refusal (Coded.named codes.now) (Calls.opening voices (Coded.params numbers.now codes.now) (Live.timing sample_rate tempo scale)) }
    ensures bank { Banks.bank_of bank.new.arrays ≡ (Banks.new (Live.asked (Coded.named codes.now) (Calls.opening voices (Coded.params numbers.now codes.now) (Live.timing sample_rate tempo scale)))).bank }
    ensures kept { Lent.KeptFrom (Calls.opened (Live.asked (Coded.named codes.now) (Calls.opening voices (Coded.params numbers.now codes.now) (Live.timing sample_rate tempo scale)))).voices bank.old.arrays bank.new.arrays }
{
    match coded::params(numbers, codes) {
        Ok(params) => number_of(bank.open(voices, params, timing_of(sample_rate, tempo, scale))),
        Err(refusal) => {
            let _ = bank.open(0, EnvelopeParams::AMP, Timing::new(0.0));
            refusal.number()
        }
    }
}

// New settings for a voice. Refused: 10, 2, 3.
#[unsafe(no_mangle)]
pub extern "C" fn worfelli_struct_set_params(
    bank: &mut Bank,
    voice: usize,
    numbers: &[f32; 11],
    codes: &[u32; 3],
) -> u32
    ensures refusal { result ≡ (Live.answer (Coded.named codes.now) (Banks.bank_of bank.old.arrays) (Call.set_params voice (Coded.params numbers.now codes.now))).refusal }
    ensures bank { Banks.bank_of bank.new.arrays ≡ (Live.answer (Coded.named codes.now) (Banks.bank_of bank.old.arrays) (Call.set_params voice (Coded.params numbers.now codes.now))).bank }
    ensures kept { Lent.Kept result bank.old.arrays bank.new.arrays }
{
    match coded::params(numbers, codes) {
        Ok(params) => number_of(bank.set_params(voice, params)),
        Err(refusal) => refusal.number(),
    }
}

// New settings for every voice. Refused: 10, 3. It makes another call of the bank than the one above, so one
// generic function would not replace the two.
#[unsafe(no_mangle)]
pub extern "C" fn worfelli_struct_set_all_params(
    bank: &mut Bank,
    numbers: &[f32; 11],
    codes: &[u32; 3],
) -> u32
    ensures refusal { result ≡ (Live.answer (Coded.named codes.now) (Banks.bank_of bank.old.arrays) (Call.set_all_params (Coded.params numbers.now codes.now))).refusal }
    ensures bank { Banks.bank_of bank.new.arrays ≡ (Live.answer (Coded.named codes.now) (Banks.bank_of bank.old.arrays) (Call.set_all_params (Coded.params numbers.now codes.now))).bank }
    ensures kept { Lent.Kept result bank.old.arrays bank.new.arrays }
{
    match coded::params(numbers, codes) {
        Ok(params) => number_of(bank.set_all_params(params)),
        Err(refusal) => refusal.number(),
    }
}

// Another timing for every voice. Refused: 4.
#[unsafe(no_mangle)]
pub extern "C" fn worfelli_struct_set_timing(
    bank: &mut Bank,
    sample_rate: f64,
    tempo: f64,
    scale: f64,
) -> u32
    ensures refusal { result ≡ (Banks.answer (Banks.bank_of bank.old.arrays) (Call.set_timing (Live.timing sample_rate tempo scale))).refusal }
    ensures bank { Banks.bank_of bank.new.arrays ≡ (Banks.answer (Banks.bank_of bank.old.arrays) (Call.set_timing (Live.timing sample_rate tempo scale))).bank }
    ensures kept { Lent.Kept result bank.old.arrays bank.new.arrays }
{
    number_of(bank.set_timing(timing_of(sample_rate, tempo, scale)))
}

// A note for a voice, by its kind of trigger: 0 new, 1 retrigger, 2 legato. Refused: 10, 2.
#[unsafe(no_mangle)]
pub extern "C" fn worfelli_struct_trigger(bank: &mut Bank, voice: usize, kind: u32) -> u32
    ensures refusal { result ≡ (Live.answer (ltb kind 3) (Banks.bank_of bank.old.arrays) (Call.trigger voice (Format.kind kind))).refusal }
    ensures bank { Banks.bank_of bank.new.arrays ≡ (Live.answer (ltb kind 3) (Banks.bank_of bank.old.arrays) (Call.trigger voice (Format.kind kind))).bank }
    ensures kept { Lent.Kept result bank.old.arrays bank.new.arrays }
{
    match coded::trigger(kind) {
        Ok(trigger) => number_of(bank.trigger(voice, trigger)),
        Err(refusal) => refusal.number(),
    }
}

// A note for each of these voices, by its kind of trigger. Refused: 10, 12, 2.
#[unsafe(no_mangle)]
pub extern "C" fn worfelli_struct_chord(bank: &mut Bank, voices: &[usize], kind: u32) -> u32
    ensures refusal { result ≡ (Live.answer (ltb kind 3) (Banks.bank_of bank.old.arrays) (Call.chord voices.now (Format.kind kind))).refusal }
    ensures bank { Banks.bank_of bank.new.arrays ≡ (Live.answer (ltb kind 3) (Banks.bank_of bank.old.arrays) (Call.chord voices.now (Format.kind kind))).bank }
    ensures kept { Lent.Kept result bank.old.arrays bank.new.arrays }
{
    match coded::trigger(kind) {
        Ok(trigger) => number_of(bank.chord(voices, trigger)),
        Err(refusal) => refusal.number(),
    }
}

// The same, for what calls it by its first name.
#[unsafe(no_mangle)]
pub extern "C" fn worfelli_live_chord(bank: &mut Bank, voices: &[usize], kind: u32) -> u32
    ensures refusal { result ≡ (Live.answer (ltb kind 3) (Banks.bank_of bank.old.arrays) (Call.chord voices.now (Format.kind kind))).refusal }
    ensures bank { Banks.bank_of bank.new.arrays ≡ (Live.answer (ltb kind 3) (Banks.bank_of bank.old.arrays) (Call.chord voices.now (Format.kind kind))).bank }
    ensures kept { Lent.Kept result bank.old.arrays bank.new.arrays }
{
    worfelli_struct_chord(bank, voices, kind)
}

// The end of a voice's note. Refused, as the two calls below: 2.
#[unsafe(no_mangle)]
pub extern "C" fn worfelli_struct_release(bank: &mut Bank, voice: usize) -> u32
    ensures refusal { result ≡ (Banks.answer (Banks.bank_of bank.old.arrays) (Call.release voice)).refusal }
    ensures bank { Banks.bank_of bank.new.arrays ≡ (Banks.answer (Banks.bank_of bank.old.arrays) (Call.release voice)).bank }
    ensures kept { Lent.Kept result bank.old.arrays bank.new.arrays }
{
    number_of(bank.release(voice))
}

// Idle for a voice, with no release before it.
#[unsafe(no_mangle)]
pub extern "C" fn worfelli_struct_reset(bank: &mut Bank, voice: usize) -> u32
    ensures refusal { result ≡ (Banks.answer (Banks.bank_of bank.old.arrays) (Call.reset voice)).refusal }
    ensures bank { Banks.bank_of bank.new.arrays ≡ (Banks.answer (Banks.bank_of bank.old.arrays) (Call.reset voice)).bank }
    ensures kept { Lent.Kept result bank.old.arrays bank.new.arrays }
{
    number_of(bank.reset(voice))
}

// The first voice becomes a copy of the second.
#[unsafe(no_mangle)]
pub extern "C" fn worfelli_struct_join(bank: &mut Bank, voice: usize, from: usize) -> u32
    ensures refusal { result ≡ (Banks.answer (Banks.bank_of bank.old.arrays) (Call.join voice from)).refusal }
    ensures bank { Banks.bank_of bank.new.arrays ≡ (Banks.answer (Banks.bank_of bank.old.arrays) (Call.join voice from)).bank }
    ensures kept { Lent.Kept result bank.old.arrays bank.new.arrays }
{
    number_of(bank.join(voice, from))
}

// The next frames of every voice. Refused: 5 an output that is not whole frames.
#[unsafe(no_mangle)]
pub extern "C" fn worfelli_struct_process(bank: &mut Bank, out: &mut [f32]) -> u32
    ensures refusal { result ≡ (Banks.answer (Banks.bank_of bank.old.arrays) (Call.process (length out.old))).refusal }
    ensures bank { Banks.bank_of bank.new.arrays ≡ (Banks.answer (Banks.bank_of bank.old.arrays) (Call.process (length out.old))).bank }
    ensures levels { out.new ≡ Banks.written (Banks.bank_of bank.old.arrays) out.old }
    ensures kept { Lent.Processed result bank.old.arrays bank.new.arrays }
{
    number_of(bank.process(out))
}
