// From times to counts of samples: mod.rs's TimeUnit and Timing, by value.
#![tactic(auto)]

ghost use Rattle.std.specs.Prelude.{◌≡◌};
ghost use Rattle.timing.specs.Clock as Clock;
ghost use Rattle.timing.specs.Codes as Codes;
ghost use Rattle.timing.specs.Samples as Samples;

// A scale outside MIN_TIME_SCALE..MAX_TIME_SCALE counts as the nearer of the two.
pub const MIN_TIME_SCALE: f64 = 0.1;

pub const MAX_TIME_SCALE: f64 = 10.0;

// What a time counts: milliseconds, or quarter notes at the timing's tempo.
#[derive(Clone, Copy)]
pub enum TimeUnit {
    Milliseconds,
    Tempo,
}

// A code that names nothing.
#[derive(Clone, Copy)]
pub struct UnnamedCode;

impl TryFrom<u32> for TimeUnit {
    type Error = UnnamedCode;

    ghost try_from_gives = { λ code r. r ≡ Codes.unit code };

    fn try_from(code: u32) -> Result<Self, UnnamedCode> {
        match code {
            0 => Ok(TimeUnit::Milliseconds),
            1 => Ok(TimeUnit::Tempo),
            _ => Err(UnnamedCode),
        }
    }
}

// How many samples a second has and how many beats a minute, and a factor for all times.
#[derive(Clone, Copy)]
pub struct Timing {
    pub sample_rate: f64,
    pub tempo: f64,
    pub scale: f64,
}

impl Timing {
    // Times as they are, and two beats a second.
    pub fn new(sample_rate: f64) -> Self
        ensures { result ≡ Clock.new sample_rate }
    {
        Self {
            sample_rate,
            tempo: 120.0,
            scale: 1.0,
        }
    }

    // This timing with another tempo.
    pub fn with_tempo(self, tempo: f64) -> Self
        ensures { result ≡ Clock.with_tempo self tempo }
    {
        Self { tempo, ..self }
    }

    // This timing with another factor.
    pub fn with_scale(self, scale: f64) -> Self
        ensures { result ≡ Clock.with_scale self scale }
    {
        Self { scale, ..self }
    }

    // How many samples a time lasts, to the nearest whole number, and at most the largest u64. A time or a
    // rate that is negative or NaN counts as 0, which `max` makes of both; a NaN factor leaves a NaN, which
    // rounds to 0.
    pub fn samples(self, value: f32, unit: TimeUnit) -> u64
        ensures { result ≡ Samples.samples self value unit }
    {
        let time = numbers::max(seconds(value, unit, self.tempo), 0.0);
        let scale = numbers::clamp(self.scale, MIN_TIME_SCALE, MAX_TIME_SCALE);
        numbers::round_to_u64(time * scale * numbers::max(self.sample_rate, 0.0))
    }
}

// A time in seconds, before the factor. A tempo below 1, or NaN, counts as 1: nothing is divided by 0.
fn seconds(value: f32, unit: TimeUnit, tempo: f64) -> f64
    ensures { result ≡ Samples.seconds value unit tempo }
{
    let x = numbers::widen(value);
    match unit {
        TimeUnit::Milliseconds => x / 1000.0,
        TimeUnit::Tempo => x * 60.0 / numbers::max(tempo, 1.0),
    }
}
