// The number helpers, `Timing::samples` and a note of the single envelope for C and Rust to link, each under a
// symbol of its own: the comparison with the Rust and the measurements call them.
#![tactic(auto)]

mod notes;

ghost use Rattle.std.specs.Prelude.{◌≡◌, pos, from_bits, to_bits};
ghost use Rattle.std.specs.Float.{binary32, binary64};
ghost use Rattle.std.specs.Float.Ieee.{of_int};
ghost use Rattle.numbers.specs.Conversions as Conversions;
ghost use Rattle.numbers.specs.Limits as Limits;
ghost use Rattle.numbers.specs.StandIns as StandIns;
ghost use Rattle.timing.specs.Samples as Samples;
ghost use Rattle.exports.specs.Clock as Clock;

use timing::{TimeUnit, Timing};

#[unsafe(no_mangle)]
pub extern "C" fn worfelli_unit(x: f32) -> f32
    ensures { result ≡ Limits.unit x }
{
    numbers::unit(x)
}

#[unsafe(no_mangle)]
pub extern "C" fn worfelli_max(x: f64, y: f64) -> f64
    ensures { result ≡ Limits.max x y }
{
    numbers::max(x, y)
}

#[unsafe(no_mangle)]
pub extern "C" fn worfelli_clamp(x: f64, low: f64, high: f64) -> f64
    ensures { result ≡ Limits.clamp x low high }
{
    numbers::clamp(x, low, high)
}

#[unsafe(no_mangle)]
pub extern "C" fn worfelli_round_to_u64(x: f64) -> u64
    ensures { result ≡ Conversions.round_u64 x }
{
    numbers::round_to_u64(x)
}

#[unsafe(no_mangle)]
pub extern "C" fn worfelli_narrow(x: f64) -> f32
    ensures { result ≡ Conversions.narrow x }
{
    numbers::narrow(x)
}

#[unsafe(no_mangle)]
pub extern "C" fn worfelli_widen(x: f32) -> f64
    ensures { result ≡ x }
{
    numbers::widen(x)
}

#[unsafe(no_mangle)]
pub extern "C" fn worfelli_of_u64(n: u64) -> f64
    ensures { result ≡ of_int binary64 (pos n) }
{
    numbers::of_u64(n)
}

#[unsafe(no_mangle)]
pub extern "C" fn worfelli_f32_to_bits(x: f32) -> u32
    ensures { result ≡ to_bits binary32 x }
{
    numbers::f32_to_bits(x)
}

#[unsafe(no_mangle)]
pub extern "C" fn worfelli_f32_from_bits(b: u32) -> f32
    ensures { result ≡ from_bits binary32 b }
{
    numbers::f32_from_bits(b)
}

#[unsafe(no_mangle)]
pub extern "C" fn worfelli_f64_to_bits(x: f64) -> u64
    ensures { result ≡ to_bits binary64 x }
{
    numbers::f64_to_bits(x)
}

#[unsafe(no_mangle)]
pub extern "C" fn worfelli_f64_from_bits(b: u64) -> f64
    ensures { result ≡ from_bits binary64 b }
{
    numbers::f64_from_bits(b)
}

#[unsafe(no_mangle)]
pub extern "C" fn worfelli_exp_m1(z: f64) -> f64
    ensures { result ≡ StandIns.exp_m1 z }
{
    numbers::exp_m1(z)
}

#[unsafe(no_mangle)]
pub extern "C" fn worfelli_exp(z: f64) -> f64
    ensures { result ≡ StandIns.exp z }
{
    numbers::exp(z)
}

#[unsafe(no_mangle)]
pub extern "C" fn worfelli_ln_1p(a: f64) -> f64
    ensures { result ≡ StandIns.ln1p a }
{
    numbers::ln_1p(a)
}

#[unsafe(no_mangle)]
pub extern "C" fn worfelli_powi(r: f64, len: u32) -> f64
    ensures { result ≡ StandIns.powi r len }
{
    numbers::powi(r, len)
}

// `Timing::samples`, with the unit as a flag: true for beats, false for milliseconds.
#[tactic(auto, unfolding(crate::specs::Clock::unit))]
#[unsafe(no_mangle)]
pub extern "C" fn worfelli_samples(
    beats: bool,
    value: f32,
    sample_rate: f64,
    tempo: f64,
    scale: f64,
) -> u64
    ensures { result ≡ Samples.samples (Clock.timing sample_rate tempo scale) value (Clock.unit beats) }
{
    let timing = Timing {
        sample_rate,
        tempo,
        scale,
    };
    let unit = if beats {
        TimeUnit::Tempo
    } else {
        TimeUnit::Milliseconds
    };
    timing.samples(value, unit)
}
