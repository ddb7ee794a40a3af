// Bit patterns of floats, out and in, for every pattern. The logic has one NaN: it leaves as the
// quiet NaN without sign or payload, and any NaN pattern enters as it.
ghost use Rattle.std.specs.Prelude.{◌≡◌, from_bits, to_bits};
ghost use Rattle.std.specs.Float.{binary32, binary64};

pub fn f32_to_bits(x: f32) -> u32
    ensures { result ≡ to_bits binary32 x }
{
    std::num::f32_to_bits_with_nan(x)
}

pub fn f32_from_bits(b: u32) -> f32
    ensures { result ≡ from_bits binary32 b }
{
    std::num::f32_from_bits_with_nan(b)
}

pub fn f64_to_bits(x: f64) -> u64
    ensures { result ≡ to_bits binary64 x }
{
    std::num::f64_to_bits_with_nan(x)
}

pub fn f64_from_bits(b: u64) -> f64
    ensures { result ≡ from_bits binary64 b }
{
    std::num::f64_from_bits_with_nan(b)
}
