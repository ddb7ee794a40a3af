// The readings, in the order of crate::readings.
ghost use Rattle.std.specs.Prelude.{◌≡◌};
ghost use Rattle.rows.specs.Strides as Strides;
ghost use Rattle.bank.specs.Banks as Banks;
ghost use Rattle.bank.specs.Calls.{Call, Query};
ghost use Rattle.bank.specs.Replies as Replies;
ghost use Rattle.worfelli.specs.Apart as Apart;
ghost use Rattle.worfelli.specs.OutParameters as OutParameters;

use crate::apart::gather;
use crate::readings;
use bank::Bank;
use memory::{Bends, Codes, Counts, Floats};

// How many voices it has.
#[unsafe(no_mangle)]
pub extern "C" fn worfelli_live_voices(f: &Floats, k: &Bends, n: &Counts, c: &Codes) -> usize
    ensures { result ≡ Banks.size (Banks.bank_of (Apart.arrays f.now k.now n.now c.now)) }
{
    let mut bank = Bank::EMPTY;
    gather(&mut bank, f, k, n, c);
    readings::worfelli_struct_voices(&bank)
}

// The levels of a frame.
#[unsafe(no_mangle)]
pub extern "C" fn worfelli_live_stride(f: &Floats, k: &Bends, n: &Counts, c: &Codes) -> usize
    ensures { result ≡ Strides.stride_of (Banks.size (Banks.bank_of (Apart.arrays f.now k.now n.now c.now))) }
{
    let mut bank = Bank::EMPTY;
    gather(&mut bank, f, k, n, c);
    readings::worfelli_struct_stride(&bank)
}

// A voice's settings. Refused, as all below: 2.
#[unsafe(no_mangle)]
pub extern "C" fn worfelli_live_params(
    f: &Floats,
    k: &Bends,
    n: &Counts,
    c: &Codes,
    voice: usize,
    numbers: &mut [f32; 11],
    codes: &mut [u32; 3],
) -> u32
    ensures refusal { result ≡ OutParameters.refusal (Replies.reply (Banks.bank_of (Apart.arrays f.now k.now n.now c.now)) (Call.ask (Query.params voice))) }
    ensures numbers { numbers.new ≡ OutParameters.numbers (Replies.reply (Banks.bank_of (Apart.arrays f.now k.now n.now c.now)) (Call.ask (Query.params voice))) numbers.old }
    ensures codes { codes.new ≡ OutParameters.codes (Replies.reply (Banks.bank_of (Apart.arrays f.now k.now n.now c.now)) (Call.ask (Query.params voice))) codes.old }
{
    let mut bank = Bank::EMPTY;
    gather(&mut bank, f, k, n, c);
    readings::worfelli_struct_params(&bank, voice, numbers, codes)
}

// Where a voice is: 0 Idle, 1 Delay, 2 Attack, 3 Hold, 4 Decay, 5 Sustain, 6 Release.
#[unsafe(no_mangle)]
pub extern "C" fn worfelli_live_stage(
    f: &Floats,
    k: &Bends,
    n: &Counts,
    c: &Codes,
    voice: usize,
    stage: &mut u32,
) -> u32
    ensures refusal { result ≡ OutParameters.refusal (Replies.reply (Banks.bank_of (Apart.arrays f.now k.now n.now c.now)) (Call.ask (Query.stage voice))) }
    ensures written { stage.new ≡ OutParameters.number (Replies.reply (Banks.bank_of (Apart.arrays f.now k.now n.now c.now)) (Call.ask (Query.stage voice))) stage.old }
{
    let mut bank = Bank::EMPTY;
    gather(&mut bank, f, k, n, c);
    readings::worfelli_struct_stage(&bank, voice, stage)
}

// The level that a voice hands out next.
#[unsafe(no_mangle)]
pub extern "C" fn worfelli_live_level(
    f: &Floats,
    k: &Bends,
    n: &Counts,
    c: &Codes,
    voice: usize,
    level: &mut f32,
) -> u32
    ensures refusal { result ≡ OutParameters.refusal (Replies.reply (Banks.bank_of (Apart.arrays f.now k.now n.now c.now)) (Call.ask (Query.level voice))) }
    ensures written { level.new ≡ OutParameters.level (Replies.reply (Banks.bank_of (Apart.arrays f.now k.now n.now c.now)) (Call.ask (Query.level voice))) level.old }
{
    let mut bank = Bank::EMPTY;
    gather(&mut bank, f, k, n, c);
    readings::worfelli_struct_level(&bank, voice, level)
}

// Whether a voice is idle: 1, else 0.
#[unsafe(no_mangle)]
pub extern "C" fn worfelli_live_is_idle(
    f: &Floats,
    k: &Bends,
    n: &Counts,
    c: &Codes,
    voice: usize,
    idle: &mut u32,
) -> u32
    ensures refusal { result ≡ OutParameters.refusal (Replies.reply (Banks.bank_of (Apart.arrays f.now k.now n.now c.now)) (Call.ask (Query.is_idle voice))) }
    ensures written { idle.new ≡ OutParameters.number (Replies.reply (Banks.bank_of (Apart.arrays f.now k.now n.now c.now)) (Call.ask (Query.is_idle voice))) idle.old }
{
    let mut bank = Bank::EMPTY;
    gather(&mut bank, f, k, n, c);
    readings::worfelli_struct_is_idle(&bank, voice, idle)
}

// 0 when a voice is idle, else its release's count of samples.
#[unsafe(no_mangle)]
pub extern "C" fn worfelli_live_tail(
    f: &Floats,
    k: &Bends,
    n: &Counts,
    c: &Codes,
    voice: usize,
    frames: &mut u64,
) -> u32
    ensures refusal { result ≡ OutParameters.refusal (Replies.reply (Banks.bank_of (Apart.arrays f.now k.now n.now c.now)) (Call.ask (Query.tail voice))) }
    ensures written { frames.new ≡ OutParameters.number (Replies.reply (Banks.bank_of (Apart.arrays f.now k.now n.now c.now)) (Call.ask (Query.tail voice))) frames.old }
{
    let mut bank = Bank::EMPTY;
    gather(&mut bank, f, k, n, c);
    readings::worfelli_struct_tail(&bank, voice, frames)
}

// The frames until a voice's Sustain, were only frames to follow; 0 in Idle, Sustain and Release.
#[unsafe(no_mangle)]
pub extern "C" fn worfelli_live_lead(
    f: &Floats,
    k: &Bends,
    n: &Counts,
    c: &Codes,
    voice: usize,
    frames: &mut u64,
) -> u32
    ensures refusal { result ≡ OutParameters.refusal (Replies.reply (Banks.bank_of (Apart.arrays f.now k.now n.now c.now)) (Call.ask (Query.lead voice))) }
    ensures written { frames.new ≡ OutParameters.number (Replies.reply (Banks.bank_of (Apart.arrays f.now k.now n.now c.now)) (Call.ask (Query.lead voice))) frames.old }
{
    let mut bank = Bank::EMPTY;
    gather(&mut bank, f, k, n, c);
    readings::worfelli_struct_lead(&bank, voice, frames)
}
