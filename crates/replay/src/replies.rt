// Writing an answer in words of four bytes, and levels.
ghost use Rattle.std.specs.Prelude.{◌≡◌};
ghost use Rattle.replay.specs.Notes as Notes;

use envelope::Envelope;
use settings::{EnvelopeParams, Stage};
use std::io;
use std::io::Write;

// The lower word of a number, and the higher. Not by `as` alone, which has to lose nothing.
pub(crate) fn low(x: u64) -> u32 {
    (x % 0x1_0000_0000) as u32
}

pub(crate) fn high(x: u64) -> u32 {
    (x >> 32) as u32
}

// All readings of an envelope or a voice.
#[derive(Clone, Copy)]
pub(crate) struct AllReadings {
    pub params: EnvelopeParams,
    pub stage: Stage,
    pub idle: bool,
    pub level: f32,
    pub tail: u64,
    pub lead: u64,
}

// Four bytes for each word, the lowest first.
pub(crate) fn write_words<const N: usize>(to: &mut impl Write, words: [u32; N]) -> io::Result<()> {
    let mut bytes = [[0u8; 4]; N];
    for (place, word) in bytes.iter_mut().zip(&words) {
        *place = word.to_le_bytes();
    }
    to.write_all(bytes.as_flattened())
}

// The readings after the number of a refusal, 22 words with it.
pub(crate) fn write_answer(to: &mut impl Write, refusal: u32, t: AllReadings) -> io::Result<()> {
    let p = t.params;
    write_words(
        to,
        [
            refusal,
            p.unit as u32,
            numbers::f32_to_bits(p.delay),
            numbers::f32_to_bits(p.attack),
            numbers::f32_to_bits(p.hold),
            numbers::f32_to_bits(p.decay),
            numbers::f32_to_bits(p.sustain),
            numbers::f32_to_bits(p.release),
            numbers::f32_to_bits(p.attack_curve),
            numbers::f32_to_bits(p.decay_curve),
            numbers::f32_to_bits(p.release_curve),
            numbers::f32_to_bits(p.start),
            numbers::f32_to_bits(p.end),
            p.legato_inverted as u32,
            p.steal_restart as u32,
            t.stage as u32,
            t.idle as u32,
            numbers::f32_to_bits(t.level),
            low(t.tail),
            high(t.tail),
            low(t.lead),
            high(t.lead),
        ],
    )
}

// Those of an envelope, which is lent to one reading after the other.
fn readings(e: Envelope) -> AllReadings
    ensures { result ≡ Notes.readings e }
{
    AllReadings {
        params: e.params(),
        stage: e.stage(),
        idle: e.is_idle(),
        level: e.level(),
        tail: e.tail(),
        lead: e.lead(),
    }
}

// The answer to a call that left the envelope e.
pub(crate) fn write_reply(to: &mut impl Write, refusal: u32, e: Envelope) -> io::Result<()> {
    write_answer(to, refusal, readings(e))
}

// The bits of levels, up to 1024 at a time.
pub(crate) fn write_levels(to: &mut impl Write, levels: &[f32]) -> io::Result<()> {
    for some in levels.chunks(1024) {
        let mut bytes = [[0u8; 4]; 1024];
        for (place, level) in bytes.iter_mut().zip(some) {
            *place = numbers::f32_to_bits(*level).to_le_bytes();
        }
        to.write_all(bytes[..some.len()].as_flattened())?;
    }
    Ok(())
}
