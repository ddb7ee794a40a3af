// What the bodies of records say, by their place in the list, as in bytes.rt.
ghost use Rattle.std.specs.Prelude.{◌≡◌, ◌+◌, ◌≤◌, length};
ghost use Rattle.events.specs.Format as Format;

use crate::Event;
use crate::bytes::{f32_at, f64_at, u32_at};
use crate::tags::Tag;
use settings::{EnvelopeParams, Refusal, StealRestart, Trigger, flag_named};
use timing::{TimeUnit, Timing};

#[tactic(auto, unfolding(crate::specs::Format::timing))]
fn timing_at(list: &[u8], at: usize) -> Timing
    requires { at + 24 ≤ length list.now }
    ensures { result ≡ Format.timing list.now at }
{
    Timing {
        sample_rate: f64_at(list, at),
        tempo: f64_at(list, at + 8),
        scale: f64_at(list, at + 16),
    }
}

#[tactic(auto, unfolding(crate::specs::Format::named, crate::specs::Format::params))]
fn params_at(list: &[u8], at: usize) -> Result<EnvelopeParams, Refusal>
    requires { at + 47 ≤ length list.now }
    ensures { result ≡ Format.if_named (Format.named list.now at) (Format.params list.now at) }
{
    Ok(EnvelopeParams {
        unit: TimeUnit::try_from(list[at] as u32)?,
        delay: f32_at(list, at + 1),
        attack: f32_at(list, at + 5),
        hold: f32_at(list, at + 9),
        decay: f32_at(list, at + 13),
        sustain: f32_at(list, at + 17),
        release: f32_at(list, at + 21),
        attack_curve: f32_at(list, at + 25),
        decay_curve: f32_at(list, at + 29),
        release_curve: f32_at(list, at + 33),
        start: f32_at(list, at + 37),
        end: f32_at(list, at + 41),
        legato_inverted: flag_named(list[at + 45] as u32)?,
        steal_restart: StealRestart::try_from(list[at + 46] as u32)?,
    })
}

// What a body says that begins at `at`: each arm needs its own tag's length, and a new tag is the
// last arm.
#[tactic(auto, unfolding(crate::specs::Format::meaning))]
pub(crate) fn event_at(tag: Tag, list: &[u8], at: usize) -> Result<Event, Refusal>
    requires { at + Format.body_length tag ≤ length list.now }
    ensures { result ≡ Format.meaning tag list.now at }
{
    match tag {
        Tag::Open => Ok(Event::Open {
            voices: list[at],
            timing: timing_at(list, at + 1),
            params: params_at(list, at + 25)?,
        }),
        Tag::SetParams => Ok(Event::SetParams {
            voice: list[at],
            params: params_at(list, at + 1)?,
        }),
        Tag::SetAllParams => Ok(Event::SetAllParams(params_at(list, at)?)),
        Tag::SetTiming => Ok(Event::SetTiming(timing_at(list, at))),
        Tag::Trigger => Ok(Event::Trigger {
            voice: list[at],
            trigger: Trigger::try_from(list[at + 1] as u32)?,
        }),
        Tag::Release => Ok(Event::Release(list[at])),
        Tag::Reset => Ok(Event::Reset(list[at])),
        Tag::Join => Ok(Event::Join {
            voice: list[at],
            from: list[at + 1],
        }),
        Tag::Frames => Ok(Event::Frames(u32_at(list, at))),
    }
}
