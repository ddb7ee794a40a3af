// Writing the bank's answers: a refusal, and what is read of a voice. Where a reading is refused, AMP,
// Idle, false and zeros stand in its place.
use crate::replies;
use crate::replies::{AllReadings, high, low};
use bank::Bank;
use settings::{EnvelopeParams, Stage, number_of};
use std::io;
use std::io::Write;

fn readings(bank: &Bank, voice: usize) -> AllReadings {
    AllReadings {
        params: bank.params(voice).unwrap_or(EnvelopeParams::AMP),
        stage: bank.stage(voice).unwrap_or(Stage::Idle),
        idle: bank.is_idle(voice).unwrap_or(false),
        level: bank.level(voice).unwrap_or(0.0),
        tail: bank.tail(voice).unwrap_or(0),
        lead: bank.lead(voice).unwrap_or(0),
    }
}

// Everything that is read of a voice; then the other readings' refusals, and the numbers that never
// refuse.
pub(crate) fn write_readings(to: &mut impl Write, bank: &Bank, voice: usize) -> io::Result<()> {
    replies::write_answer(to, number_of(bank.params(voice)), readings(bank, voice))?;
    let voices = bank.voices() as u64;
    let stride = bank.stride() as u64;
    replies::write_words(
        to,
        [
            number_of(bank.stage(voice)),
            number_of(bank.is_idle(voice)),
            number_of(bank.level(voice)),
            number_of(bank.tail(voice)),
            number_of(bank.lead(voice)),
            low(voices),
            high(voices),
            low(stride),
            high(stride),
        ],
    )
}
