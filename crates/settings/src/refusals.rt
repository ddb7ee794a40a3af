// What is refused, and by which number: document 01, "No's, by call".
ghost use Rattle.std.specs.Prelude.{◌≡◌};
ghost use Rattle.settings.specs.declared.refusals.Refusal.{Refusal};
ghost use Rattle.settings.specs.Refusals as Refusals;

use crate::settings::EnvelopeParams;
use timing::{Timing, UnnamedCode};

// Why a call is refused; each has its number.
#[derive(Clone, Copy)]
pub enum Refusal {
    // A bank of more voices than it has room for.
    TooManyVoices = 1,
    NoSuchVoice = 2,
    // A time over MAX_TIME.
    TimeOver = 3,
    // A sample rate over MAX_SAMPLE_RATE.
    RateOver = 4,
    // An output that is not whole frames.
    NotWholeFrames = 5,
    // A record of an event list whose head or body doesn't fit in the bytes.
    CutShort = 6,
    UnknownTag = 7,
    WrongLength = 8,
    // A first record that is no open, or an open that isn't first.
    MisplacedOpen = 9,
    // A code byte without a name.
    UnnamedCode = 10,
    // An output that doesn't hold a list's frames.
    OutputTooShort = 11,
    // A chord that names a voice twice, or of more voices than a bank has room for.
    NotAChord = 12,
}

impl Refusal {
    pub fn number(self) -> u32
        ensures { result ≡ Refusals.number self }
    {
        self as u32
    }
}

impl From<UnnamedCode> for Refusal {
    ghost from_gives = { λ _ r. r ≡ Refusal.UnnamedCode };

    fn from(_code: UnnamedCode) -> Self {
        Refusal::UnnamedCode
    }
}

// A call's answer as hosts and lists have it: 0, or the refusal's number.
pub fn number_of<T: Drop>(answer: Result<T, Refusal>) -> u32
    ensures { result ≡ Refusals.number_of answer }
{
    match answer {
        Ok(_) => 0,
        Err(refusal) => refusal.number(),
    }
}

// In milliseconds or beats.
pub const MAX_TIME: f32 = 1048576.0;
// In samples per second.
pub const MAX_SAMPLE_RATE: f64 = 1048576.0;

// Whether these settings are accepted. A NaN is over nothing.
pub fn check_params(p: EnvelopeParams) -> Result<(), Refusal>
    ensures { Refusals.number_of result ≡ Refusals.params p }
{
    if p.delay > MAX_TIME
        || p.attack > MAX_TIME
        || p.hold > MAX_TIME
        || p.decay > MAX_TIME
        || p.release > MAX_TIME
    {
        return Err(Refusal::TimeOver);
    }
    Ok(())
}

// Whether this timing is accepted.
pub fn check_timing(timing: Timing) -> Result<(), Refusal>
    ensures { Refusals.number_of result ≡ Refusals.timing timing }
{
    if timing.sample_rate > MAX_SAMPLE_RATE {
        return Err(Refusal::RateOver);
    }
    Ok(())
}

// Whether a fresh envelope of these is accepted: the rate is tested first.
pub fn check_fresh(p: EnvelopeParams, timing: Timing) -> Result<(), Refusal>
    ensures { Refusals.number_of result ≡ Refusals.fresh p timing }
{
    check_timing(timing)?;
    check_params(p)
}
