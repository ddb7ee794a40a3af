// The calls of the bank.
use crate::calls::Call;
use crate::{Levels, MOST_LEVELS, bank_replies, replies};
use bank::Bank;
use settings::{Refusal, number_of};
use std::io;
use std::io::Write;

// Makes a call that writes no levels and reads nothing.
fn make(bank: &mut Bank, call: &Call) -> Result<(), Refusal> {
    let voice = call.voice();
    match call.tag() {
        9 => bank.open(voice, call.params(), call.timing()),
        10 => bank.set_params(voice, call.params()),
        11 => bank.set_all_params(call.params()),
        12 => bank.set_timing(call.timing()),
        13 => bank.trigger(voice, call.trigger()),
        14 => bank.release(voice),
        15 => bank.reset(voice),
        16 => bank.join(voice, call.source()),
        22 => bank.chord(&call.entry_voices()[..call.entry_count()], call.trigger()),
        _ => Ok(()),
    }
}

// Numbers from 2 up, which no voice hands out, each by its place, for up to MOST_LEVELS: what a process
// leaves is seen.
fn fill(levels: &mut [f32]) {
    for (level, bits) in levels.iter_mut().zip(0x4000_0000..0x4004_0000) {
        *level = numbers::f32_from_bits(bits);
    }
}

// Makes a process, which is answered.
fn process(to: &mut impl Write, bank: &mut Bank, levels: &mut [f32]) -> io::Result<()> {
    fill(levels);
    let answer = bank.process(levels);
    replies::write_words(to, [number_of(answer)])?;
    replies::write_levels(to, levels)
}

// Makes a call, which is answered.
pub(crate) fn answer(
    to: &mut impl Write,
    bank: &mut Bank,
    call: &Call,
    levels: &mut Levels,
) -> io::Result<()> {
    match call.tag() {
        17 => process(to, bank, &mut levels[..call.count(MOST_LEVELS)]),
        18 => bank_replies::write_readings(to, bank, call.voice()),
        _ => replies::write_words(to, [number_of(make(bank, call))]),
    }
}
