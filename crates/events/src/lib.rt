// The event list: its records, read from bytes.
#![tactic(auto)]

mod bodies;
mod bytes;
mod tags;

ghost use Rattle.std.specs.Prelude.{◌≡◌};
ghost use Rattle.events.specs.Format as Format;

use settings::{EnvelopeParams, Refusal, Trigger};
use tags::Tag;
use timing::Timing;

// What a record says. Timing and settings come as their numbers.
#[derive(Clone, Copy)]
pub enum Event {
    Open {
        voices: u8,
        timing: Timing,
        params: EnvelopeParams,
    },
    SetParams {
        voice: u8,
        params: EnvelopeParams,
    },
    SetAllParams(EnvelopeParams),
    SetTiming(Timing),
    Trigger {
        voice: u8,
        trigger: Trigger,
    },
    Release(u8),
    Reset(u8),
    Join {
        voice: u8,
        from: u8,
    },
    Frames(u32),
}

// What stands at a place of a list: an event, and the place after its record.
#[derive(Clone, Copy)]
pub struct Record {
    pub event: Event,
    pub next: usize,
}

// The record at a place of a list. Refused, in this order: its head or its body doesn't fit in the
// bytes; an unknown tag; a wrong length; a first record that is no open, or an open that isn't
// first; a code byte without a name.
#[tactic(auto, using(crate::proofs::Numbers::two_bytes), unfolding(crate::specs::Format::read))]
pub fn read(list: &[u8], at: usize) -> Result<Record, Refusal>
    ensures { Format.parsed result ≡ Format.read list.now at }
{
    if list.len() < 3 || list.len() - 3 < at {
        return Err(Refusal::CutShort);
    }
    let len = u16::from_le_bytes([list[at + 1], list[at + 2]]) as usize;
    if list.len() - 3 - at < len {
        return Err(Refusal::CutShort);
    }
    let tag = Tag::try_from(list[at])?;
    if len != tag.body_length() {
        return Err(Refusal::WrongLength);
    }
    if tag.is_open() != (at == 0) {
        return Err(Refusal::MisplacedOpen);
    }
    let event = bodies::event_at(tag, list, at + 3)?;
    Ok(Record {
        event,
        next: at + 3 + len,
    })
}
