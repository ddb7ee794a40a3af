// Answers the calls of an envelope and of a bank: 88 bytes of standard input to a call, and after a chord
// its entries. The comparison with the Rust drives it, and so does ./worfelli, which draws pictures by
// it; the files stdin and stdout hold a few of the Rust's answers.
//
// A call: its tag, the settings S at 1, the timing T at 48, as document 01's event list has them; then
// two voices' numbers, eight bytes each, at 72 and at 80.
//
// Tags of the envelope: 1 fresh, 2 settings, 3 timing, 4 trigger (its kind at 1), 5 release, 6 reset,
// 7 process (the number of frames at 1, in four bytes, at most 65,536), 8 next level. Its answer, in
// words of four bytes: the refusal's number, the settings after the call, the stage, whether it is
// idle, the level's bits, tail and lead (two words each); then the levels' bits.
//
// Tags 19 to 21: a note of the trigger's kinds 0 to 2, on the envelope lent (the number of frames at
// 72, at most 65,536). Its answer is that of an envelope, with the number that refused the timing,
// else the settings; then the levels of the frames and the one after them.
//
// Tags of the bank: 9 open (how many voices at 72), 10 settings, 11 settings for all, 12 timing,
// 13 trigger, 14 release, 15 reset, 16 join (from the voice at 80), 17 process (the length of the
// output at 1, at most 262,144), 18 readings, 22 chord (its trigger's kind at 1, how many entries at 72,
// at most 128, which follow the 88 bytes, eight bytes each). Its answer is the refusal's number, one
// word; to a process all of its output follows, whatever was written to it. To readings the answer is
// that of the envelope, with the number that refused the settings' reading; then those of stage, idle,
// level, tail and lead, and voices and stride (two words each).
#![tactic(auto)]

mod bank_calls;
mod bank_replies;
mod calls;
mod notes;
mod replies;

ghost use Rattle.std.specs.Prelude.{◌≤◌};

use bank::Bank;
use calls::{Call, MOST_ENTRIES};
use envelope::Envelope;
use settings::{EnvelopeParams, number_of};
use std::io;
use std::io::{ErrorKind, Read, Write};
use timing::Timing;

// The most levels that an answer writes, and the most that an envelope draws.
pub(crate) const MOST_LEVELS: usize = 262144;

pub(crate) type Levels = [f32; MOST_LEVELS];

const MOST_FRAMES: usize = 65536;

// One frame by `after_frame`, or a block.
fn drawn(e: Envelope, tag: u8, frames: usize, levels: &mut Levels) -> Envelope
    requires { frames ≤ MOST_FRAMES }
{
    if tag == 8 {
        let frame = e.after_frame();
        levels[0] = frame.level;
        return frame.envelope;
    }
    e.after_process(&mut levels[..frames])
}

// Plays a note on the envelope, which is answered: the timing's refusal comes before the settings'.
fn answer_note(
    to: &mut impl Write,
    e: &mut Envelope,
    call: &Call,
    levels: &mut Levels,
) -> io::Result<()> {
    let block = &mut levels[..call.note_frames(MOST_FRAMES)];
    let note = notes::played(*e, call.note_trigger(), block, call.params(), call.timing());
    *e = note.envelope;
    replies::write_reply(to, number_of(note.timing.and(note.params)), *e)?;
    replies::write_levels(to, block)?;
    replies::write_words(to, [numbers::f32_to_bits(note.level)])
}

// Makes a call on the envelope, which is answered.
fn answer_envelope(
    to: &mut impl Write,
    e: &mut Envelope,
    call: &Call,
    levels: &mut Levels,
) -> io::Result<()> {
    let answer = call.make(e);
    let frames = call.frames(MOST_FRAMES);
    *e = drawn(*e, call.tag(), frames, levels);
    replies::write_reply(to, number_of(answer), *e)?;
    replies::write_levels(to, &levels[..frames])
}

// Makes a call on the envelope or on the bank, which is answered.
fn answer(
    to: &mut impl Write,
    e: &mut Envelope,
    bank: &mut Bank,
    call: &Call,
    levels: &mut Levels,
) -> io::Result<()> {
    match call.tag() {
        0..=8 => answer_envelope(to, e, call, levels),
        9..=18 | 22 => bank_calls::answer(to, bank, call, levels),
        _ => answer_note(to, e, call, levels),
    }
}

// Reads until the bytes are full. Whether the input had so many.
fn read_whole(from: &mut impl Read, bytes: &mut [u8]) -> io::Result<bool> {
    match from.read_exact(bytes) {
        Ok(()) => Ok(true),
        Err(e) if e.kind() == ErrorKind::UnexpectedEof => Ok(false),
        Err(e) => Err(e),
    }
}

// Reads a call, and the entries of a chord. Whether the input had so many bytes.
fn read_call(from: &mut impl Read, call: &mut Call) -> io::Result<bool> {
    if !read_whole(from, &mut call.bytes)? {
        return Ok(false);
    }
    let entries = call.entry_count();
    read_whole(from, call.entries[..entries].as_flattened_mut())
}

fn main(rt: HostRuntime) -> io::Result<()> {
    let mut call = Call {
        bytes: [0; 88],
        entries: [[0; 8]; MOST_ENTRIES],
    };
    let mut levels = [0.0; MOST_LEVELS];
    let mut bank = Bank::EMPTY;
    let amp = EnvelopeParams::AMP;
    let timing = Timing::new(0.0);
    let _ = bank.open(0, amp, timing);
    let mut e = Envelope::fallback();
    for _ in 0..u64::MAX {
        if !read_call(&mut rt.stdin(), &mut call)? {
            return Ok(());
        }
        answer(&mut rt.stdout(), &mut e, &mut bank, &call, &mut levels)?;
    }
    Ok(())
}
