// A call, read from its 88 bytes and the entries of a chord, and made on the envelope.
ghost use Rattle.std.specs.Prelude.{◌+◌, ◌≤◌};

use envelope::Envelope;
use settings::{EnvelopeParams, Refusal, StealRestart, Trigger};
use timing::{TimeUnit, Timing};

// The most entries of a chord, with room for lists that are refused as too long.
pub(crate) const MOST_ENTRIES: usize = 128;

#[derive(Drop)]
pub(crate) struct Call {
    pub bytes: [u8; 88],
    // Those past the call's count are an earlier chord's, or zeros.
    pub entries: [[u8; 8]; MOST_ENTRIES],
}

// A code without a name counts as the last one's.
fn trigger(code: u8) -> Trigger {
    Trigger::try_from(code as u32).unwrap_or(Trigger::Legato)
}

impl Call {
    // A number of the input's, as main.rt's head has them: an enum would list them once more.
    pub(crate) fn tag(&self) -> u8 {
        self.bytes[0]
    }

    // That they lie within the call is asked by each that reads some, with its own size.
    fn bytes_at<const N: usize>(&self, at: usize) -> [u8; N]
        requires { at + N ≤ 88 }
    {
        *self.bytes[at..].first_chunk().unwrap()
    }

    fn u32_at(&self, at: usize) -> u32
        requires { at + 4 ≤ 88 }
    {
        u32::from_le_bytes(self.bytes_at(at))
    }

    fn f32_at(&self, at: usize) -> f32
        requires { at + 4 ≤ 88 }
    {
        numbers::f32_from_bits(self.u32_at(at))
    }

    fn u64_at(&self, at: usize) -> u64
        requires { at + 8 ≤ 88 }
    {
        u64::from_le_bytes(self.bytes_at(at))
    }

    fn f64_at(&self, at: usize) -> f64
        requires { at + 8 ≤ 88 }
    {
        numbers::f64_from_bits(self.u64_at(at))
    }

    // The settings S. A code without a name counts as the last one's.
    pub(crate) fn params(&self) -> EnvelopeParams {
        let unit = self.bytes[1] as u32;
        let restart = self.bytes[47] as u32;
        EnvelopeParams {
            unit: TimeUnit::try_from(unit).unwrap_or(TimeUnit::Tempo),
            delay: self.f32_at(2),
            attack: self.f32_at(6),
            hold: self.f32_at(10),
            decay: self.f32_at(14),
            sustain: self.f32_at(18),
            release: self.f32_at(22),
            attack_curve: self.f32_at(26),
            decay_curve: self.f32_at(30),
            release_curve: self.f32_at(34),
            start: self.f32_at(38),
            end: self.f32_at(42),
            legato_inverted: self.bytes[46] != 0,
            steal_restart: StealRestart::try_from(restart).unwrap_or(StealRestart::StartLevel),
        }
    }

    // The timing T.
    pub(crate) fn timing(&self) -> Timing {
        Timing {
            sample_rate: self.f64_at(48),
            tempo: self.f64_at(56),
            scale: self.f64_at(64),
        }
    }

    // The voice that is changed or read, or how many voices or entries.
    pub(crate) fn voice(&self) -> usize {
        self.u64_at(72) as usize
    }

    // The voice that another joins.
    pub(crate) fn source(&self) -> usize {
        self.u64_at(80) as usize
    }

    // How many entries follow the 88 bytes: those of a chord, at most MOST_ENTRIES.
    pub(crate) fn entry_count(&self) -> usize
        ensures { result ≤ MOST_ENTRIES }
    {
        match self.tag() {
            22 => self.voice().min(MOST_ENTRIES),
            _ => 0,
        }
    }

    // The voices that all entries name.
    pub(crate) fn entry_voices(&self) -> [usize; MOST_ENTRIES] {
        let mut voices = [0; MOST_ENTRIES];
        for (voice, entry) in voices.iter_mut().zip(&self.entries) {
            *voice = u64::from_le_bytes(*entry) as usize;
        }
        voices
    }

    // The kind of a trigger, and of a chord's.
    pub(crate) fn trigger(&self) -> Trigger {
        trigger(self.bytes[1])
    }

    // The kind of a note's trigger, by the note's tag.
    pub(crate) fn note_trigger(&self) -> Trigger {
        trigger(self.tag().saturating_sub(19))
    }

    // A block's length, at most `most`.
    pub(crate) fn count(&self, most: usize) -> usize
        ensures { result ≤ most }
    {
        (self.u32_at(1) as usize).min(most)
    }

    // How many frames a note's key is held, at most `most`.
    pub(crate) fn note_frames(&self, most: usize) -> usize
        ensures { result ≤ most }
    {
        self.voice().min(most)
    }

    // How many levels the call draws, at most `most`.
    pub(crate) fn frames(&self, most: usize) -> usize
        requires { 1 ≤ most }
        ensures { result ≤ most }
    {
        match self.tag() {
            7 => self.count(most),
            8 => 1,
            _ => 0,
        }
    }

    // Makes the call on the envelope. In a refused fresh one's place the fallback stands; refused
    // otherwise, nothing changes. Frames are drawn apart.
    pub(crate) fn make(&self, e: &mut Envelope) -> Result<(), Refusal> {
        match self.tag() {
            1 => {
                *e = Envelope::fallback();
                *e = Envelope::fresh(self.params(), self.timing())?;
            }
            2 => *e = e.with_params(self.params())?,
            3 => *e = e.with_timing(self.timing())?,
            4 => *e = e.after_trigger(self.trigger()),
            5 => *e = e.after_release(),
            6 => *e = e.after_reset(),
            _ => (),
        }
        Ok(())
    }
}
