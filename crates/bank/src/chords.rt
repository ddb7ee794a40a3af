// A chord: one kind of trigger for each voice of a list, one after the other. The whole list is tested
// before the first voice is touched.
ghost use Rattle.std.specs.Prelude.{◌≡◌};
ghost use Rattle.settings.specs.Refusals as Refusals;
ghost use Rattle.lane.specs.Voices as Voices;
ghost use Rattle.memory.specs.Memory as Memory;
ghost use Rattle.bank.specs.Banks as Banks;
ghost use Rattle.bank.specs.Calls as Calls;
ghost use Rattle.bank.specs.Calls.{Call};
ghost use Rattle.bank.specs.Lent as Lent;
ghost use Rattle.bank.specs.Parts as Parts;

use crate::banks::{Bank, check};
use crate::changes::{Change, change_voice};
use memory::{Arrays, MAX_VOICES};
use settings::{Refusal, Trigger};

// Whether a number stands in the list twice. A number that a bank has room for is marked, so that a chord
// is walked once; any other, with which the list is refused in any case, is searched for before its place.
fn names_twice(voices: &[usize]) -> bool
    ensures { result ≡ Calls.names_twice voices.now }
{
    let mut marked = [false; MAX_VOICES];
    for i in 0..voices.len() {
        let voice = voices[i];
        if voice >= MAX_VOICES {
            if voices[..i].contains(&voice) {
                return true;
            }
        } else if marked[voice] {
            return true;
        } else {
            marked[voice] = true;
        }
    }
    false
}

// Whether each of them is there.
fn check_voices(m: &Arrays, voices: &[usize]) -> Result<(), Refusal>
    ensures { Refusals.number_of result ≡ Calls.voices_refusal (Banks.known (Banks.bank_of m.now)) voices.now }
{
    for voice in voices {
        check(m, *voice)?;
    }
    Ok(())
}

// Whether a chord of these voices is accepted: 12 looks at the numbers alone, and comes before 2.
fn check_chord(m: &Arrays, voices: &[usize]) -> Result<(), Refusal>
    ensures { Refusals.number_of result ≡ Calls.chord_refusal (Banks.known (Banks.bank_of m.now)) voices.now }
{
    if voices.len() > MAX_VOICES || names_twice(voices) {
        return Err(Refusal::NotAChord);
    }
    check_voices(m, voices)
}

// Whether a note leaves the voice v as it is: it is then not stored again.
fn leaves_alone(m: &Arrays, v: usize, trigger: Trigger) -> bool
    ensures { result ≡ Voices.leaves_alone trigger (Memory.loaded m.now v) }
{
    m.load(v).leaves_alone(trigger)
}

// A note for each of the voices.
fn trigger_voices(m: &mut Arrays, voices: &[usize], trigger: Trigger)
    requires { Calls.voices_refusal (Banks.known (Banks.bank_of m.now)) voices.now ≡ 0 }
    ensures { Parts.Chord voices.now trigger m.old m.new }
{
    let timing = m.timing();
    for voice in voices {
        if !leaves_alone(m, *voice, trigger) {
            change_voice(m, *voice, timing, Change::Trigger(trigger));
        }
    }
}

impl Bank {
    // A note for each of these voices, by its kind of trigger, in the order of the list. Refused: 12 a voice
    // that is named twice or over 64 of them, whether or not they are there; 2 no such voice.
    pub fn chord(&mut self, voices: &[usize], trigger: Trigger) -> Result<(), Refusal>
        ensures refusal { Refusals.number_of result ≡ (Banks.answer (Banks.bank_of self.old.arrays) (Call.chord voices.now trigger)).refusal }
        ensures bank { Banks.bank_of self.new.arrays ≡ (Banks.answer (Banks.bank_of self.old.arrays) (Call.chord voices.now trigger)).bank }
        ensures kept { Lent.Kept (Refusals.number_of result) self.old.arrays self.new.arrays }
    {
        check_chord(&self.arrays, voices)?;
        trigger_voices(&mut self.arrays, voices, trigger);
        Ok(())
    }
}
