// The calls, in the order of crate::calls. A refused one writes nothing, but for `open`, which then makes the bank of
// no voices.
ghost use Rattle.std.specs.Prelude.{◌≡◌, ltb, length};
ghost use Rattle.bank.specs.Banks as Banks;
ghost use Rattle.bank.specs.Calls as Calls;
ghost use Rattle.bank.specs.Calls.{Call};
ghost use Rattle.bank.specs.Lent as Lent;
ghost use Rattle.events.specs.Format as Format;
ghost use Rattle.worfelli.specs.Apart as Apart;
ghost use Rattle.worfelli.specs.Coded as Coded;
ghost use Rattle.worfelli.specs.Live as Live;

use crate::apart::{gather, put_back};
use crate::calls;
use bank::Bank;
use memory::{Bends, Codes, Counts, Floats};

// A fresh bank. Refused: 10 an unnamed code, then by the bank's numbers; the arrays then hold the bank
// of no voices, AMP and Timing::new(0.0).
#[unsafe(no_mangle)]
pub extern "C" fn worfelli_live_open(
    f: &mut Floats,
    k: &mut Bends,
    n: &mut Counts,
    c: &mut Codes,
    voices: usize,
    numbers: &[f32; 11],
    codes: &[u32; 3],
    sample_rate: f64,
    tempo: f64,
    scale: f64,
) -> u32
    ensures refusal { result ≡ Live.opening_refusal (Coded.named codes.now) (Calls.opening voices (Coded.params numbers.now codes.now) (Live.timing sample_rate tempo scale)) }
    ensures bank { Banks.bank_of (Apart.arrays f.new k.new n.new c.new) ≡ (Banks.new (Live.asked (Coded.named codes.now) (Calls.opening voices (Coded.params numbers.now codes.now) (Live.timing sample_rate tempo scale)))).bank }
    ensures kept { Lent.KeptFrom (Calls.opened (Live.asked (Coded.named codes.now) (Calls.opening voices (Coded.params numbers.now codes.now) (Live.timing sample_rate tempo scale)))).voices (Apart.arrays f.old k.old n.old c.old) (Apart.arrays f.new k.new n.new c.new) }
{
    let mut bank = Bank::EMPTY;
    gather(&mut bank, f, k, n, c);
    let answer = calls::worfelli_struct_open(
        &mut bank,
        voices,
        numbers,
        codes,
        sample_rate,
        tempo,
        scale,
    );
    put_back(&bank, f, k, n, c);
    answer
}

// New settings for a voice. Refused: 10, 2, 3.
#[unsafe(no_mangle)]
pub extern "C" fn worfelli_live_set_params(
    f: &mut Floats,
    k: &mut Bends,
    n: &mut Counts,
    c: &mut Codes,
    voice: usize,
    numbers: &[f32; 11],
    codes: &[u32; 3],
) -> u32
    ensures refusal { result ≡ (Live.answer (Coded.named codes.now) (Banks.bank_of (Apart.arrays f.old k.old n.old c.old)) (Call.set_params voice (Coded.params numbers.now codes.now))).refusal }
    ensures bank { Banks.bank_of (Apart.arrays f.new k.new n.new c.new) ≡ (Live.answer (Coded.named codes.now) (Banks.bank_of (Apart.arrays f.old k.old n.old c.old)) (Call.set_params voice (Coded.params numbers.now codes.now))).bank }
    ensures kept { Lent.Kept result (Apart.arrays f.old k.old n.old c.old) (Apart.arrays f.new k.new n.new c.new) }
{
    let mut bank = Bank::EMPTY;
    gather(&mut bank, f, k, n, c);
    let answer = calls::worfelli_struct_set_params(&mut bank, voice, numbers, codes);
    if answer == 0 {
        put_back(&bank, f, k, n, c);
    }
    answer
}

// New settings for every voice. Refused: 10, 3.
#[unsafe(no_mangle)]
pub extern "C" fn worfelli_live_set_all_params(
    f: &mut Floats,
    k: &mut Bends,
    n: &mut Counts,
    c: &mut Codes,
    numbers: &[f32; 11],
    codes: &[u32; 3],
) -> u32
    ensures refusal { result ≡ (Live.answer (Coded.named codes.now) (Banks.bank_of (Apart.arrays f.old k.old n.old c.old)) (Call.set_all_params (Coded.params numbers.now codes.now))).refusal }
    ensures bank { Banks.bank_of (Apart.arrays f.new k.new n.new c.new) ≡ (Live.answer (Coded.named codes.now) (Banks.bank_of (Apart.arrays f.old k.old n.old c.old)) (Call.set_all_params (Coded.params numbers.now codes.now))).bank }
    ensures kept { Lent.Kept result (Apart.arrays f.old k.old n.old c.old) (Apart.arrays f.new k.new n.new c.new) }
{
    let mut bank = Bank::EMPTY;
    gather(&mut bank, f, k, n, c);
    let answer = calls::worfelli_struct_set_all_params(&mut bank, numbers, codes);
    if answer == 0 {
        put_back(&bank, f, k, n, c);
    }
    answer
}

// Another timing for every voice. Refused: 4.
#[unsafe(no_mangle)]
pub extern "C" fn worfelli_live_set_timing(
    f: &mut Floats,
    k: &mut Bends,
    n: &mut Counts,
    c: &mut Codes,
    sample_rate: f64,
    tempo: f64,
    scale: f64,
) -> u32
    ensures refusal { result ≡ (Banks.answer (Banks.bank_of (Apart.arrays f.old k.old n.old c.old)) (Call.set_timing (Live.timing sample_rate tempo scale))).refusal }
    ensures bank { Banks.bank_of (Apart.arrays f.new k.new n.new c.new) ≡ (Banks.answer (Banks.bank_of (Apart.arrays f.old k.old n.old c.old)) (Call.set_timing (Live.timing sample_rate tempo scale))).bank }
    ensures kept { Lent.Kept result (Apart.arrays f.old k.old n.old c.old) (Apart.arrays f.new k.new n.new c.new) }
{
    let mut bank = Bank::EMPTY;
    gather(&mut bank, f, k, n, c);
    let answer = calls::worfelli_struct_set_timing(&mut bank, sample_rate, tempo, scale);
    if answer == 0 {
        put_back(&bank, f, k, n, c);
    }
    answer
}

// A note for a voice, by its kind of trigger: 0 new, 1 retrigger, 2 legato. Refused: 10, 2.
#[unsafe(no_mangle)]
pub extern "C" fn worfelli_live_trigger(
    f: &mut Floats,
    k: &mut Bends,
    n: &mut Counts,
    c: &mut Codes,
    voice: usize,
    kind: u32,
) -> u32
    ensures refusal { result ≡ (Live.answer (ltb kind 3) (Banks.bank_of (Apart.arrays f.old k.old n.old c.old)) (Call.trigger voice (Format.kind kind))).refusal }
    ensures bank { Banks.bank_of (Apart.arrays f.new k.new n.new c.new) ≡ (Live.answer (ltb kind 3) (Banks.bank_of (Apart.arrays f.old k.old n.old c.old)) (Call.trigger voice (Format.kind kind))).bank }
    ensures kept { Lent.Kept result (Apart.arrays f.old k.old n.old c.old) (Apart.arrays f.new k.new n.new c.new) }
{
    let mut bank = Bank::EMPTY;
    gather(&mut bank, f, k, n, c);
    let answer = calls::worfelli_struct_trigger(&mut bank, voice, kind);
    if answer == 0 {
        put_back(&bank, f, k, n, c);
    }
    answer
}

// A note for each of these voices, by its kind of trigger. Refused: 10, 12, 2. `worfelli_live_chord` takes a bank's
// pointer.
#[unsafe(no_mangle)]
pub extern "C" fn worfelli_apart_chord(
    f: &mut Floats,
    k: &mut Bends,
    n: &mut Counts,
    c: &mut Codes,
    voices: &[usize],
    kind: u32,
) -> u32
    ensures refusal { result ≡ (Live.answer (ltb kind 3) (Banks.bank_of (Apart.arrays f.old k.old n.old c.old)) (Call.chord voices.now (Format.kind kind))).refusal }
    ensures bank { Banks.bank_of (Apart.arrays f.new k.new n.new c.new) ≡ (Live.answer (ltb kind 3) (Banks.bank_of (Apart.arrays f.old k.old n.old c.old)) (Call.chord voices.now (Format.kind kind))).bank }
    ensures kept { Lent.Kept result (Apart.arrays f.old k.old n.old c.old) (Apart.arrays f.new k.new n.new c.new) }
{
    let mut bank = Bank::EMPTY;
    gather(&mut bank, f, k, n, c);
    let answer = calls::worfelli_struct_chord(&mut bank, voices, kind);
    if answer == 0 {
        put_back(&bank, f, k, n, c);
    }
    answer
}

// The end of a voice's note. Refused, as the two calls below: 2.
#[unsafe(no_mangle)]
pub extern "C" fn worfelli_live_release(
    f: &mut Floats,
    k: &mut Bends,
    n: &mut Counts,
    c: &mut Codes,
    voice: usize,
) -> u32
    ensures refusal { result ≡ (Banks.answer (Banks.bank_of (Apart.arrays f.old k.old n.old c.old)) (Call.release voice)).refusal }
    ensures bank { Banks.bank_of (Apart.arrays f.new k.new n.new c.new) ≡ (Banks.answer (Banks.bank_of (Apart.arrays f.old k.old n.old c.old)) (Call.release voice)).bank }
    ensures kept { Lent.Kept result (Apart.arrays f.old k.old n.old c.old) (Apart.arrays f.new k.new n.new c.new) }
{
    let mut bank = Bank::EMPTY;
    gather(&mut bank, f, k, n, c);
    let answer = calls::worfelli_struct_release(&mut bank, voice);
    if answer == 0 {
        put_back(&bank, f, k, n, c);
    }
    answer
}

// Idle for a voice, with no release before it.
#[unsafe(no_mangle)]
pub extern "C" fn worfelli_live_reset(
    f: &mut Floats,
    k: &mut Bends,
    n: &mut Counts,
    c: &mut Codes,
    voice: usize,
) -> u32
    ensures refusal { result ≡ (Banks.answer (Banks.bank_of (Apart.arrays f.old k.old n.old c.old)) (Call.reset voice)).refusal }
    ensures bank { Banks.bank_of (Apart.arrays f.new k.new n.new c.new) ≡ (Banks.answer (Banks.bank_of (Apart.arrays f.old k.old n.old c.old)) (Call.reset voice)).bank }
    ensures kept { Lent.Kept result (Apart.arrays f.old k.old n.old c.old) (Apart.arrays f.new k.new n.new c.new) }
{
    let mut bank = Bank::EMPTY;
    gather(&mut bank, f, k, n, c);
    let answer = calls::worfelli_struct_reset(&mut bank, voice);
    if answer == 0 {
        put_back(&bank, f, k, n, c);
    }
    answer
}

// The first voice becomes a copy of the second.
#[unsafe(no_mangle)]
pub extern "C" fn worfelli_live_join(
    f: &mut Floats,
    k: &mut Bends,
    n: &mut Counts,
    c: &mut Codes,
    voice: usize,
    from: usize,
) -> u32
    ensures refusal { result ≡ (Banks.answer (Banks.bank_of (Apart.arrays f.old k.old n.old c.old)) (Call.join voice from)).refusal }
    ensures bank { Banks.bank_of (Apart.arrays f.new k.new n.new c.new) ≡ (Banks.answer (Banks.bank_of (Apart.arrays f.old k.old n.old c.old)) (Call.join voice from)).bank }
    ensures kept { Lent.Kept result (Apart.arrays f.old k.old n.old c.old) (Apart.arrays f.new k.new n.new c.new) }
{
    let mut bank = Bank::EMPTY;
    gather(&mut bank, f, k, n, c);
    let answer = calls::worfelli_struct_join(&mut bank, voice, from);
    if answer == 0 {
        put_back(&bank, f, k, n, c);
    }
    answer
}

// The next frames of every voice. Refused: 5 an output that is not whole frames.
#[unsafe(no_mangle)]
pub extern "C" fn worfelli_live_process(
    f: &mut Floats,
    k: &mut Bends,
    n: &mut Counts,
    c: &mut Codes,
    out: &mut [f32],
) -> u32
    ensures refusal { result ≡ (Banks.answer (Banks.bank_of (Apart.arrays f.old k.old n.old c.old)) (Call.process (length out.old))).refusal }
    ensures bank { Banks.bank_of (Apart.arrays f.new k.new n.new c.new) ≡ (Banks.answer (Banks.bank_of (Apart.arrays f.old k.old n.old c.old)) (Call.process (length out.old))).bank }
    ensures levels { out.new ≡ Banks.written (Banks.bank_of (Apart.arrays f.old k.old n.old c.old)) out.old }
    ensures kept { Lent.Processed result (Apart.arrays f.old k.old n.old c.old) (Apart.arrays f.new k.new n.new c.new) }
{
    let mut bank = Bank::EMPTY;
    gather(&mut bank, f, k, n, c);
    let answer = calls::worfelli_struct_process(&mut bank, out);
    if answer == 0 {
        put_back(&bank, f, k, n, c);
    }
    answer
}
