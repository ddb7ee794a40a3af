// Widening, narrowing and rounding. The lossy conversions work on the exponent field and the digits of
// the bit pattern.
ghost use Rattle.std.specs.Prelude.{◌≡◌, ◌^◌, ◌<◌, false, pos};
ghost use Rattle.std.specs.Float.{binary64};
ghost use Rattle.std.specs.Float.Ieee.{of_fields, of_int};
ghost use Rattle.std.specs.Float.Ieee.Nearest as Nearest;
ghost use Rattle.numbers.specs.Conversions as Conversions;
ghost use Rattle.numbers.specs.Parts.{Narrowed};

// x as an f64, which holds every f32.
pub fn widen(x: f32) -> f64
    ensures { result ≡ x }
{
    std::num::f32_to_f64_with_nan(x)
}

// n as an f64, rounded once.
pub fn of_u64(n: u64) -> f64
    ensures { result ≡ of_int binary64 (pos n) }
{
    std::num::nearest_u64_to_f64(n)
}

// d / u to the nearest whole number, a tie to the even one.
fn nearest(d: u64, u: u64) -> u64
    requires { (0 < u) × (d < 2 ^ 53) × (u < 2 ^ 54) }
    ensures { result ≡ Nearest.closest d u }
{
    let q = d / u;
    let r = (d % u) * 2;
    if r < u {
        q
    } else if r == u {
        q + q % 2
    } else {
        q + 1
    }
}

// The pattern, without its sign, of the binary32 nearest to the binary64 with the exponent field e
// and the digits t: an infinity, a normal number, a subnormal one or zero.
fn narrow_fields(e: u64, t: u64) -> u64
    requires { (e < 2048) × (t < 2 ^ 52) × (e ≡ 2047 → t ≡ 0) }
    ensures { Narrowed e t result }
{
    if e >= 1151 {
        return 0x7f80_0000;
    }
    if e >= 897 {
        return (e - 897) * 0x80_0000 + nearest(0x10_0000_0000_0000 + t, 0x2000_0000);
    }
    if e >= 873 {
        return nearest(0x10_0000_0000_0000 + t, 1 << (926 - e));
    }
    0
}

// The f32 nearest to x, ties to even.
// By its pattern, since the library's `nearest_f64_to_f32_with_nan` takes twice as long.
pub fn narrow(x: f64) -> f32
    ensures { result ≡ Conversions.narrow x }
{
    if x.is_nan() {
        return f32::NAN;
    }
    let pattern = f64::to_bits(x);
    let magnitude = narrow_fields(
        pattern % 0x8000_0000_0000_0000 / 0x10_0000_0000_0000,
        pattern % 0x10_0000_0000_0000,
    );
    f32::from_bits((pattern / 0x8000_0000_0000_0000 * 0x8000_0000 + magnitude) as u32)
}

// The whole number nearest to the binary64 with no sign, the exponent field e and the digits t, a
// half up, saturating at the largest u64.
fn round_fields(e: u64, t: u64) -> u64
    requires { (e < 2048) × (t < 2 ^ 52) × (e ≡ 2047 → t ≡ 0) }
    ensures { result ≡ Conversions.round_u64 (of_fields binary64 false e t) }
{
    if e >= 1087 {
        return 0xffff_ffff_ffff_ffff;
    }
    if e >= 1076 {
        return (0x10_0000_0000_0000 + t) << (e - 1075);
    }
    if e >= 1022 {
        let u: u64 = 1 << (1075 - e);
        return ((0x10_0000_0000_0000 + t) * 2 + u) / (u * 2);
    }
    0
}

// x to the nearest whole number, halves away from zero; NaN and negatives give 0.
// By its pattern, since the library's `round` and `saturating_f64_to_u64` take almost three times as long.
pub fn round_to_u64(x: f64) -> u64
    ensures { result ≡ Conversions.round_u64 x }
{
    if x.is_nan() {
        return 0;
    }
    let bits = f64::to_bits(x);
    if bits >= 0x8000_0000_0000_0000 {
        return 0;
    }
    round_fields(
        bits % 0x8000_0000_0000_0000 / 0x10_0000_0000_0000,
        bits % 0x10_0000_0000_0000,
    )
}
