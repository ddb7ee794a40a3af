// Plays an event list from bytes into bytes: the whole list is checked, then each record is read and
// applied to a bank.
#![tactic(auto)]

ghost use Rattle.std.specs.Prelude.{◌≡◌, ◌*◌, ◌/◌, ◌≤◌, pos, neg_ℤ, length};
ghost use Rattle.rows.specs.Strides as Strides;
ghost use Rattle.bank.specs.Banks as Banks;
ghost use Rattle.checking.specs.Checks as Checks;
ghost use Rattle.checking.specs.Actions as Actions;
ghost use Rattle.player.specs.Playing as Playing;

use bank::Bank;
use events::{Event, Record};
use settings::EnvelopeParams;
use timing::Timing;

// So many frames, for which there is room, in bytes. Answers how many bytes they took.
fn draw(bank: &mut Bank, frames: u32, out: &mut [u8]) -> usize
    requires { frames * Strides.stride_of (Banks.size (Banks.bank_of bank.old.arrays)) ≤ length out.old / 4 }
    ensures bank { Banks.bank_of bank.new.arrays ≡ Banks.frames frames (Banks.bank_of bank.old.arrays) }
    ensures levels { out.new ≡ Playing.put (Banks.bytes (Banks.rows frames (Banks.bank_of bank.old.arrays))) out.old }
    ensures count { result ≡ length (Banks.bytes (Banks.rows frames (Banks.bank_of bank.old.arrays))) }
{
    let row = 4 * bank.stride();
    let _ = bank.process_bytes(out, frames);
    frames as usize * row
}

// Applies an event to the bank: one arm a kind. Answers how many bytes were written.
#[tactic(auto, using(crate::proofs::Doing::quiet_levels, crate::proofs::Doing::quiet_count), unfolding(crate::specs::Playing::after, checking::specs::Actions::action, checking::specs::Actions::frames_of))]
fn apply(bank: &mut Bank, event: Event, out: &mut [u8]) -> usize
    requires { Actions.frames_of event * Strides.stride_of (Banks.size (Banks.bank_of bank.old.arrays)) ≤ length out.old / 4 }
    ensures bank { Banks.bank_of bank.new.arrays ≡ Playing.after (Banks.bank_of bank.old.arrays) (Actions.action (Banks.known (Banks.bank_of bank.old.arrays)) event) }
    ensures levels { out.new ≡ Playing.put (Banks.bytes (Playing.action_levels (Banks.bank_of bank.old.arrays) (Actions.action (Banks.known (Banks.bank_of bank.old.arrays)) event))) out.old }
    ensures count { result ≡ length (Banks.bytes (Playing.action_levels (Banks.bank_of bank.old.arrays) (Actions.action (Banks.known (Banks.bank_of bank.old.arrays)) event))) }
{
    // No call of an accepted list is refused.
    let _ = match event {
        Event::Open {
            voices,
            timing,
            params,
        } => bank.open(voices as usize, params, timing),
        Event::SetParams { voice, params } => bank.set_params(voice as usize, params),
        Event::SetAllParams(params) => bank.set_all_params(params),
        Event::SetTiming(timing) => bank.set_timing(timing),
        Event::Trigger { voice, trigger } => bank.trigger(voice as usize, trigger),
        Event::Release(voice) => bank.release(voice as usize),
        Event::Reset(voice) => bank.reset(voice as usize),
        Event::Join { voice, from } => bank.join(voice as usize, from as usize),
        Event::Frames(frames) => return draw(bank, frames, out),
    };
    0
}

// Plays a list that is accepted: record after record, each into the part of the output that the ones
// before it left.
fn play_records(list: &[u8], out: &mut [u8])
    requires { (Checks.checked list.now (length out.old)).refusal ≡ 0 }
    ensures { out.new ≡ Playing.put (Playing.level_bytes list.now) out.old }
{
    let mut bank = Bank::EMPTY;
    let _ = bank.open(0, EnvelopeParams::AMP, Timing::new(0.0));
    let mut at = 0;
    let mut to = 0;
    while let Ok(Record { event, next }) = events::read(list, at) {
        to += apply(&mut bank, event, &mut out[to..]);
        at = next;
    }
}

// Plays a list into `out`, four bytes a level, the lowest first: frame after frame, each of as many
// levels as the bank has lanes. Answers the frames written, or minus the number of the refusal, which
// leaves `out` as it was: one number, as document 01 has it and C wants it.
pub fn play(list: &[u8], out: &mut [u8]) -> i64
    ensures result { result ≡ Playing.result list.now (length out.old) }
    ensures output { out.new ≡ Playing.output list.now out.old }
{
    let checked = checking::check(list, out.len());
    if let Err(refusal) = checked.verdict {
        return -(refusal.number() as i64);
    }
    play_records(list, out);
    checked.passed.frames as i64
}

// The first byte of the record for which a list is refused, for an output of so many bytes; the
// list's length if it is not refused.
pub fn refused_at(list: &[u8], out_len: usize) -> u64
    ensures { result ≡ Playing.refused_at list.now out_len }
{
    checking::check(list, out_len).passed.at as u64
}
