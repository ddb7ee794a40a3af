// Limiting a number: `unit`, `max` and `clamp`.
ghost use Rattle.std.specs.Prelude.{◌≡◌};
ghost use Rattle.numbers.specs.Limits as Limits;

// A level or a curve control as it is used: from +0 to 1, and +0 for a NaN. It is never -0, so that
// levels which compare equal have the same bits: `replan`, which compares them, then misses no change, and
// a level that stays is the same drawn as u × scale + base, or handed out as its base as by the Rust's bank.
// By tests, since the Rust's `clamp` and sum with +0 take 2 % longer.
pub fn unit(x: f32) -> f32
    ensures { result ≡ Limits.unit x }
{
    if x > 0.0 {
        if x < 1.0 { x } else { 1.0 }
    } else {
        0.0
    }
}

// The larger of the two; with one NaN, the other operand.
// Not f64's `max`, which leaves open which of two equal ones it gives: here it is the first.
pub fn max(x: f64, y: f64) -> f64
    ensures { result ≡ Limits.max x y }
{
    if x.is_nan() || x < y { y } else { x }
}

// x limited to low..high; a NaN stays NaN.
// Not f64's `clamp`, which requires low <= high.
pub fn clamp(x: f64, low: f64, high: f64) -> f64
    ensures { result ≡ Limits.clamp x low high }
{
    if x < low {
        low
    } else if x > high {
        high
    } else {
        x
    }
}
