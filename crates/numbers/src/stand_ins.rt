// The stand-ins of document 01 for exp_m1, exp, ln_1p and powi. Every machine rounds their single
// operations alike, which it does not promise for libm's functions.
ghost use Rattle.std.specs.Prelude.{◌≡◌};
ghost use Rattle.numbers.specs.StandIns as StandIns;

// E(z), in place of exp_m1.
pub fn exp_m1(z: f64) -> f64
    ensures { result ≡ StandIns.exp_m1 z }
{
    let w = z / 64.0;
    let mut t = 1.0;
    for j in (2..13u32).rev() {
        t = 1.0 + (w * t) / (j as f64);
    }
    let mut y = w * t;
    for _ in 0..6u32 {
        y = y * (y + 2.0);
    }
    y
}

// E(z) + 1, in place of exp.
pub fn exp(z: f64) -> f64
    ensures { result ≡ StandIns.exp z }
{
    exp_m1(z) + 1.0
}

// r to the power len, from the bit below the highest one bit of len downwards, which the leading zeros tell. A len
// of 0 has 32 of them.
pub fn powi(r: f64, len: u32) -> f64
    ensures { result ≡ StandIns.powi r len }
{
    let mut p = r;
    let bits = 31u32.saturating_sub(len.leading_zeros());
    for bit in (0..bits).rev() {
        p = p * p;
        if (len >> bit) % 2 == 1 {
            p = p * r;
        }
    }
    p
}

// The logarithm of w = m × 2^e by its series, times the factor a / (w - 1), which makes up for what
// 1 + a lost in rounding.
fn ln_of(a: f64, w: f64, m: f64, e: i32) -> f64
    ensures { result ≡ StandIns.ln_of a w m e }
{
    let s = (m - 1.0) / (m + 1.0);
    let mut t = 1.0 / 23.0;
    for n in (0..11u32).rev() {
        t = 1.0 / ((2 * n + 1) as f64) + (s * s) * t;
    }
    ((e as f64) * f64::from_bits(0x3fe6_2e42_fefa_39ef) + (2.0 * s) * t) * (a / (w - 1.0))
}

// L(a), in place of ln_1p.
pub fn ln_1p(a: f64) -> f64
    ensures { result ≡ StandIns.ln1p a }
{
    let w = 1.0 + a;
    if w == 1.0 {
        return a;
    }
    if w > 0.0 && w < f64::INFINITY {
        // 1 + a is never subnormal, so the fields of its pattern are its exponent and digits.
        let b = f64::to_bits(w);
        let e = ((b / 0x10_0000_0000_0000) as i32) - 1023;
        let m = f64::from_bits(b % 0x10_0000_0000_0000 + 0x3ff0_0000_0000_0000);
        if m >= 1.5 {
            ln_of(a, w, m * 0.5, e + 1)
        } else {
            ln_of(a, w, m, e)
        }
    } else {
        f64::NAN
    }
}
