// What a host reads of a live bank. A refused reading leaves what its pointer shows as it was.
ghost use Rattle.std.specs.Prelude.{◌≡◌};
ghost use Rattle.rows.specs.Strides as Strides;
ghost use Rattle.settings.specs.Refusals as Refusals;
ghost use Rattle.bank.specs.Banks as Banks;
ghost use Rattle.bank.specs.Calls.{Call, Query};
ghost use Rattle.bank.specs.Replies as Replies;
ghost use Rattle.worfelli.specs.OutParameters as OutParameters;

use crate::coded;
use bank::Bank;
use settings::Refusal;

// Puts a reading's value at `place`, unless it was refused, and answers C's number: 0, or the refusal's.
fn put<T: Copy>(reading: Result<T, Refusal>, place: &mut T) -> u32
    ensures refusal { result ≡ Refusals.number_of reading }
    ensures written { place.new ≡ OutParameters.or reading place.old }
{
    match reading {
        Ok(value) => {
            *place = value;
            0
        }
        Err(refusal) => refusal.number(),
    }
}

// How many voices it has.
#[unsafe(no_mangle)]
pub extern "C" fn worfelli_struct_voices(bank: &Bank) -> usize
    ensures { result ≡ Banks.size (Banks.bank_of bank.now.arrays) }
{
    bank.voices()
}

// The levels of a frame.
#[unsafe(no_mangle)]
pub extern "C" fn worfelli_struct_stride(bank: &Bank) -> usize
    ensures { result ≡ Strides.stride_of (Banks.size (Banks.bank_of bank.now.arrays)) }
{
    bank.stride()
}

// A voice's settings. Refused, as all below: 2.
#[unsafe(no_mangle)]
pub extern "C" fn worfelli_struct_params(
    bank: &Bank,
    voice: usize,
    numbers: &mut [f32; 11],
    codes: &mut [u32; 3],
) -> u32
    ensures refusal { result ≡ OutParameters.refusal (Replies.reply (Banks.bank_of bank.now.arrays) (Call.ask (Query.params voice))) }
    ensures numbers { numbers.new ≡ OutParameters.numbers (Replies.reply (Banks.bank_of bank.now.arrays) (Call.ask (Query.params voice))) numbers.old }
    ensures codes { codes.new ≡ OutParameters.codes (Replies.reply (Banks.bank_of bank.now.arrays) (Call.ask (Query.params voice))) codes.old }
{
    match bank.params(voice) {
        Ok(params) => {
            coded::put_params(numbers, codes, params);
            0
        }
        Err(refusal) => refusal.number(),
    }
}

// Where a voice is: 0 Idle, 1 Delay, 2 Attack, 3 Hold, 4 Decay, 5 Sustain, 6 Release.
#[unsafe(no_mangle)]
pub extern "C" fn worfelli_struct_stage(bank: &Bank, voice: usize, stage: &mut u32) -> u32
    ensures refusal { result ≡ OutParameters.refusal (Replies.reply (Banks.bank_of bank.now.arrays) (Call.ask (Query.stage voice))) }
    ensures written { stage.new ≡ OutParameters.number (Replies.reply (Banks.bank_of bank.now.arrays) (Call.ask (Query.stage voice))) stage.old }
{
    put(bank.stage(voice).map(|stage| stage as u32), stage)
}

// The level that a voice hands out next.
#[unsafe(no_mangle)]
pub extern "C" fn worfelli_struct_level(bank: &Bank, voice: usize, level: &mut f32) -> u32
    ensures refusal { result ≡ OutParameters.refusal (Replies.reply (Banks.bank_of bank.now.arrays) (Call.ask (Query.level voice))) }
    ensures written { level.new ≡ OutParameters.level (Replies.reply (Banks.bank_of bank.now.arrays) (Call.ask (Query.level voice))) level.old }
{
    put(bank.level(voice), level)
}

// Whether a voice is idle: 1, else 0.
#[unsafe(no_mangle)]
pub extern "C" fn worfelli_struct_is_idle(bank: &Bank, voice: usize, idle: &mut u32) -> u32
    ensures refusal { result ≡ OutParameters.refusal (Replies.reply (Banks.bank_of bank.now.arrays) (Call.ask (Query.is_idle voice))) }
    ensures written { idle.new ≡ OutParameters.number (Replies.reply (Banks.bank_of bank.now.arrays) (Call.ask (Query.is_idle voice))) idle.old }
{
    put(bank.is_idle(voice).map(u32::from), idle)
}

// 0 when a voice is idle, else its release's count of samples.
#[unsafe(no_mangle)]
pub extern "C" fn worfelli_struct_tail(bank: &Bank, voice: usize, frames: &mut u64) -> u32
    ensures refusal { result ≡ OutParameters.refusal (Replies.reply (Banks.bank_of bank.now.arrays) (Call.ask (Query.tail voice))) }
    ensures written { frames.new ≡ OutParameters.number (Replies.reply (Banks.bank_of bank.now.arrays) (Call.ask (Query.tail voice))) frames.old }
{
    put(bank.tail(voice), frames)
}

// The frames until a voice's Sustain, were only frames to follow; 0 in Idle, Sustain and Release.
#[unsafe(no_mangle)]
pub extern "C" fn worfelli_struct_lead(bank: &Bank, voice: usize, frames: &mut u64) -> u32
    ensures refusal { result ≡ OutParameters.refusal (Replies.reply (Banks.bank_of bank.now.arrays) (Call.ask (Query.lead voice))) }
    ensures written { frames.new ≡ OutParameters.number (Replies.reply (Banks.bank_of bank.now.arrays) (Call.ask (Query.lead voice))) frames.old }
{
    put(bank.lead(voice), frames)
}
