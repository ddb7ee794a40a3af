// Frames: rows of levels, drawn run by run. A run ends with the first segment that ends.
ghost use Rattle.std.specs.Prelude.{◌≡◌, ◌*◌, ◌≤◌, ◌<◌, min, length};
ghost use Rattle.settings.specs.Refusals as Refusals;
ghost use Rattle.memory.specs.Memory as Memory;
ghost use Rattle.rows.specs.Runs as Runs;
ghost use Rattle.rows.specs.Strides as Strides;
ghost use Rattle.bank.specs.Banks as Banks;
ghost use Rattle.bank.specs.Calls.{Call};
ghost use Rattle.bank.specs.Lent as Lent;
ghost use Rattle.bank.specs.Frames as Frames;
ghost use Rattle.bank.specs.Parts as Parts;

use crate::banks::Bank;
use crate::changes::{Change, change_voice};
use curve::UNTIMED;
use memory::Arrays;
use rows::Place;
use settings::Refusal;

// `voices` is at most 64, and a plain number: `rows` takes any, so a type for it would be taken apart at each call.

// Each voice whose segment has ended has what follows it.
fn follow(m: &mut Arrays, voices: usize)
    requires { voices ≤ Memory.max_voices }
    ensures { Parts.Spread (Parts.followed (Memory.timing_at m.old.bends)) voices m.old m.new }
{
    let timing = m.timing();
    // From one that ended to the next, which `rows` finds: a range with the test here would say it again.
    let mut v = rows::next_ended(&m.codes, voices, 0);
    while v < voices {
        change_voice(m, v, timing, Change::Follow);
        v = rows::next_ended(&m.codes, voices, v + 1);
    }
}

// A run has been drawn, and `end` frames from its first on the first segment ends: the run is counted
// down, and if it reached that end, what has ended is followed. Where nothing is timed, nothing is
// counted.
fn pass(m: &mut Arrays, voices: usize, end: u32, run: u32)
    requires { (voices ≤ Memory.max_voices) × (1 ≤ run) × (run ≤ end) × (end ≡ Runs.until_end voices m.old.codes) × Runs.Counts voices m.old.codes }
    ensures { Parts.Spread (Parts.passed (Memory.timing_at m.old.bends) run) voices m.old m.new }
{
    if end == UNTIMED {
        return;
    }
    rows::count_down(&mut m.codes, voices, run);
    if run == end {
        follow(m, voices);
    }
}

fn shorter(frames: usize, end: u32) -> u32
    ensures { result ≡ min frames end }
{
    frames.min(end as usize) as u32
}

// Draws so many frames of the voices from the output's first place on, run by run; first the lanes of
// the last group that are no voices are silenced.
fn draw_frames<P: Place<N>, const N: usize>(
    m: &mut Arrays,
    voices: usize,
    frames: usize,
    out: &mut [P],
)
    requires few { voices ≤ Memory.max_voices }
    requires room { frames * (N * Strides.groups_of voices) ≤ length out.old }
    ensures { Frames.Played P.past_end N P.cell voices frames m.old out.old m.new out.new }
{
    let row = N * rows::groups(voices);
    rows::clear_spare(&mut m.floats, voices);
    // Runs are of different lengths, which are known one after the other: no range has them.
    let mut done = 0;
    while done < frames {
        let end = rows::until_end(&m.codes, voices);
        let run = shorter(frames - done, end);
        rows::draw(&mut out[done * row..], &mut m.floats, voices, run);
        pass(m, voices, end, run);
        done += run as usize;
    }
}

impl Bank {
    // As many frames as fill the output, one after the other: a level for each voice, then +0 up to the
    // stride. Refused: 5 an output that is not whole frames, and nothing is written.
    pub fn process(&mut self, out: &mut [f32]) -> Result<(), Refusal>
        ensures refusal { Refusals.number_of result ≡ (Banks.answer (Banks.bank_of self.old.arrays) (Call.process (length out.old))).refusal }
        ensures bank { Banks.bank_of self.new.arrays ≡ (Banks.answer (Banks.bank_of self.old.arrays) (Call.process (length out.old))).bank }
        ensures levels { out.new ≡ Banks.written (Banks.bank_of self.old.arrays) out.old }
        ensures kept { Lent.Processed (Refusals.number_of result) self.old.arrays self.new.arrays }
    {
        let voices = self.arrays.voices();
        let stride = 16 * rows::groups(voices);
        if out.len() % stride != 0 {
            return Err(Refusal::NotWholeFrames);
        }
        draw_frames(&mut self.arrays, voices, out.len() / stride, out);
        Ok(())
    }

    // The next frames, as `process` has them, in bytes: four to a level, the lowest first. Refused: 11 an
    // output without room for them, and nothing is written.
    pub fn process_bytes(&mut self, out: &mut [u8], frames: u32) -> Result<(), Refusal>
        ensures refusal { Refusals.number_of result ≡ Banks.bytes_refusal (Banks.bank_of self.old.arrays) frames (length out.old) }
        ensures bank { Banks.bank_of self.new.arrays ≡ Banks.after_bytes (Banks.bank_of self.old.arrays) frames (length out.old) }
        ensures levels { out.new ≡ Banks.written_bytes (Banks.bank_of self.old.arrays) frames out.old }
        ensures kept { Lent.Processed (Refusals.number_of result) self.old.arrays self.new.arrays }
    {
        let voices = self.arrays.voices();
        let row = 64 * rows::groups(voices);
        if out.len() / row < frames as usize {
            return Err(Refusal::OutputTooShort);
        }
        draw_frames(&mut self.arrays, voices, frames as usize, out);
        Ok(())
    }
}
