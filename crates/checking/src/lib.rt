// The check of a whole event list, before a level is drawn: record by record, with no bank.
#![tactic(auto)]

ghost use Rattle.std.specs.Prelude.{◌≡◌, ◌*◌, ◌/◌, ◌≤◌, ◌<◌, ◌^◌, length};
ghost use Rattle.settings.specs.Refusals as Refusals;
ghost use Rattle.memory.specs.Memory as Memory;
ghost use Rattle.rows.specs.Strides as Strides;
ghost use Rattle.events.specs.Format as Format;
ghost use Rattle.checking.specs.Checks as Checks;
ghost use Rattle.checking.specs.Actions as Actions;

use bank::Known;
use events::{Event, Record};
use settings::Refusal;

// How far a list is accepted: the first byte of the record that comes next, what is known of the bank,
// and the frames so far.
#[derive(Clone, Copy)]
pub struct Passed {
    pub at: usize,
    pub known: Known,
    pub frames: u64,
}

// Whether a list is accepted, and how far: up to its end, or to the record that is refused.
#[derive(Clone, Copy)]
pub struct Checked {
    pub verdict: Result<(), Refusal>,
    pub passed: Passed,
}

// Whether the event's call is accepted after what is known.
#[tactic(auto, unfolding(crate::specs::Actions::action, crate::specs::Actions::own_refusal, bank::specs::Calls::refusal))]
fn check_event(known: Known, event: Event) -> Result<(), Refusal>
    ensures { Refusals.number_of result ≡ Actions.own_refusal known (Actions.action known event) }
{
    match event {
        Event::Open {
            voices,
            timing,
            params,
        } => bank::check_opening(voices as usize, params, timing),
        Event::SetParams { voice, params } => {
            known.check_voice(voice as usize)?;
            settings::check_params(params)
        }
        Event::SetAllParams(params) => settings::check_params(params),
        Event::SetTiming(timing) => settings::check_timing(timing),
        Event::Trigger { voice, .. } | Event::Release(voice) | Event::Reset(voice) => {
            known.check_voice(voice as usize)
        }
        Event::Join { voice, from } => {
            known.check_voice(voice as usize)?;
            known.check_voice(from as usize)
        }
        Event::Frames(_) => Ok(()),
    }
}

// What is known of the bank after an event.
#[tactic(auto, unfolding(crate::specs::Actions::action, crate::specs::Actions::known_after))]
fn known_after(known: Known, event: Event) -> Known
    ensures { result ≡ Actions.known_after known (Actions.action known event) }
{
    if let Event::Open { voices, .. } = event {
        return Known {
            voices: voices as usize,
        };
    }
    known
}

#[tactic(auto, unfolding(crate::specs::Actions::frames_of))]
fn frames_of(event: Event) -> u64
    ensures { (result ≡ Actions.frames_of event) × (result < 2 ^ 32) }
{
    if let Event::Frames(count) = event {
        return count as u64;
    }
    0
}

impl Passed {
    // Before the first record.
    const START: Self = Self {
        at: 0,
        known: Known { voices: 0 },
        frames: 0,
    };

    // One record more, for an output of `room` levels.
    #[tactic(auto, unfolding(crate::specs::Checks::after_record))]
    fn record(&mut self, list: &[u8], room: u64) -> Result<(), Refusal>
        requires { (self.old.known.voices ≤ Memory.max_voices) × (self.old.frames ≤ room) × (room < 2 ^ 62) }
        ensures { Checks.seen result self.new ≡ Checks.after_record room (Checks.so_far self.old) (Format.read list.now self.old.at) }
    {
        let Record { event, next } = events::read(list, self.at)?;
        check_event(self.known, event)?;
        let known = known_after(self.known, event);
        let frames = self.frames + frames_of(event);
        if frames > room / (bank::stride_of(known.voices) as u64) {
            return Err(Refusal::OutputTooShort);
        }
        *self = Self {
            at: next,
            known,
            frames,
        };
        Ok(())
    }

    // All that are left.
    fn records(&mut self, list: &[u8], room: u64) -> Result<(), Refusal>
        requires { (self.old.known.voices ≤ Memory.max_voices) × (self.old.frames * Strides.stride_of self.old.known.voices ≤ room) × (room < 2 ^ 62) }
        ensures { Checks.seen result self.new ≡ Checks.checked_from (length list.now) list.now room (Checks.so_far self.old) }
    {
        // Records are of different lengths: no range has them.
        while self.at < list.len() {
            self.record(list, room)?;
        }
        Ok(())
    }
}

// The whole list, for an output of so many bytes.
#[tactic(auto, unfolding(crate::specs::Checks::checked))]
pub fn check(list: &[u8], out_len: usize) -> Checked
    ensures { Checks.seen result.verdict result.passed ≡ Checks.checked list.now out_len }
{
    let mut passed = Passed::START;
    let verdict = if list.is_empty() {
        Err(Refusal::MisplacedOpen)
    } else {
        passed.records(list, (out_len / 4) as u64)
    };
    Checked { verdict, passed }
}
