// The curves, in binary64, and the segment that draws a part of one.
//
// After the part x of its time, a stage with the bend k has gone the part s(x) of its way:
// s(x) = (e^(-k x) - 1) / (e^(-k) - 1), and s(x) = x where k is 0. With a positive bend the first steps
// are the largest, with a negative one the last.
//
// On a curve of n samples each sample takes 1 + u times r = e^(-k / n), which for u is u × r + d with
// d = r - 1, or adds 1 to u where the segment is straight; u × scale is the way gone since the segment
// began. So u begins at 0, and its roundings are small beside that way: 1 + u in its place would lose the
// small steps of a slow curve in the last places of a number near 1. The levels at both ends of a segment
// are computed from the curve in binary64, and scale is made for the r that binary32 holds, so that only
// the roundings of binary32 take a segment off its curve. Those would add up over a long stage; so a
// segment ends after 16,384 samples at most, and the next one begins at its own computed level.
ghost use Rattle.std.specs.Prelude.{◌≡◌};
ghost use Rattle.curve.specs.Curves as Curves;

use crate::segments::Segment;

// The bend of a curve control of 1; that of 0 is its negative.
pub const MAX_BEND: f64 = 12.0;

// A segment that itself bends by less is drawn straight, which takes it off its curve by about an eighth
// of its bend, as a part of its way.
const CHORD_BELOW: f64 = 1e-3;

// A segment has at most so many samples, a third of a second at 48 kHz, and u so many rounded steps. In a
// straight one u is a count far below 2^24, and exact.
pub const MAX_SEGMENT: u32 = 16384;

// The bend that a curve control asks for: none at 0.5.
pub fn bend(curve: f32) -> f64
    ensures { result ≡ Curves.bend curve }
{
    MAX_BEND * (2.0 * numbers::widen(numbers::unit(curve)) - 1.0)
}

// s(x), the part of the way.
pub fn progress(k: f64, x: f64) -> f64
    ensures { result ≡ Curves.progress k x }
{
    if k == 0.0 {
        x
    } else {
        numbers::exp_m1(-k * x) / numbers::exp_m1(-k)
    }
}

// The other way: the part of the time after which the part v of the way is gone.
pub fn time_at(k: f64, v: f64) -> f64
    ensures { result ≡ Curves.time_at k v }
{
    let v = numbers::clamp(v, 0.0, 1.0);
    if k == 0.0 {
        v
    } else {
        // s solved for x: e^(-k x) is 1 + v (e^(-k) - 1).
        numbers::clamp(-numbers::ln_1p(v * numbers::exp_m1(-k)) / k, 0.0, 1.0)
    }
}

// The curve's level p samples in, of n; both counts are exact in binary64, since under document 01's limits
// they are below 2^53.
// No closure of `segment`, whose captures would go through memory: it took 1 % more of planning. In line, since by
// calls planning takes a third longer.
#[inline(always)]
fn at(from: f64, span: f64, k: f64, n: f64, p: u64) -> f64
    ensures { result ≡ Curves.at from span k n p }
{
    from + span * progress(k, numbers::of_u64(p) / n)
}

// Whether a segment is drawn straight. With r = 1 it has to be: r^len - 1, by which a bent one's way is
// divided, would be 0.
fn is_straight(bent: f64, r: f32) -> bool
    ensures { result ≡ Curves.is_straight bent r }
{
    bent.abs() < CHORD_BELOW || r == 1.0
}

// `len` samples, from sample `pos` on, of the curve that leads from one level to the other in `total`.
pub fn segment(from: f32, to: f32, k: f64, total: u64, pos: u64, len: u32) -> Segment
    ensures { result ≡ Curves.segment from to k total pos len }
{
    let wide = numbers::widen(from);
    let span = numbers::widen(to) - wide;
    if span == 0.0 {
        return Segment::constant(from, len);
    }
    let n = numbers::of_u64(total);
    let start = at(wide, span, k, n, pos);
    let end = at(wide, span, k, n, numbers::saturating_add(pos, len as u64));
    let r = numbers::narrow(numbers::exp(-k / n));
    if is_straight(k * (len as f64) / n, r) {
        return Segment {
            u: 0.0,
            r: 1.0,
            d: 1.0,
            scale: numbers::narrow((end - start) / (len as f64)),
            base: numbers::narrow(start),
            left: len,
        };
    }
    // What u has come to when the segment is over: 1 + u is r to the power of the samples gone. r - 1 is
    // exact for an r from 1/2 on: up to 2 by Sterbenz's lemma, and above, where r is at most e^12, since 1
    // is a whole number of r's last places. A smaller r, for which it may be rounded, comes with curves of
    // less than 18 samples alone.
    let moved = numbers::powi(numbers::widen(r), len) - 1.0;
    Segment {
        u: 0.0,
        r,
        d: r - 1.0,
        scale: numbers::narrow((end - start) / moved),
        base: numbers::narrow(start),
        left: len,
    }
}
