// A part of a stage as it is drawn: u × scale + base gives a sample's level, and u × r + d the u of the
// sample after it. A level that stays, a straight line and a curve differ in their numbers alone, so that
// lanes of all kinds are drawn side by side by the same operations.
// Whatever draws calls `level_from` and `next_u` for them: a product and a sum are each rounded, never fused.
ghost use Rattle.std.specs.Prelude.{◌≡◌};
ghost use Rattle.curve.specs.Segments as Segments;

// `left` in Idle and Sustain, which only a call ends: no segment has so many samples.
pub const UNTIMED: u32 = 0xffff_ffff;

#[derive(Clone, Copy)]
pub struct Segment {
    pub u: f32,
    pub r: f32,
    pub d: f32,
    pub scale: f32,
    pub base: f32,
    // How many of its samples are still to be drawn; UNTIMED if no count ends it.
    pub left: u32,
}

impl Segment {
    // A level that stays: with a scale of 0 and a u of 0 the sum is `level` in every bit, but for a -0,
    // which becomes +0.
    pub fn constant(level: f32, left: u32) -> Self
        ensures { result ≡ Segments.constant level left }
    {
        Self {
            u: 0.0,
            r: 1.0,
            d: 0.0,
            scale: 0.0,
            base: level,
            left,
        }
    }

    // The next sample's level.
    pub fn level(self) -> f32
        ensures { result ≡ Segments.level self }
    {
        level_from(self.u, self.scale, self.base)
    }
}

// A level, from a segment's u, scale and base.
pub fn level_from(u: f32, scale: f32, base: f32) -> f32
    ensures { result ≡ Segments.level_from u scale base }
{
    u * scale + base
}

// u one sample on, from a segment's u, r and d.
pub fn next_u(u: f32, r: f32, d: f32) -> f32
    ensures { result ≡ Segments.next_u u r d }
{
    u * r + d
}

// How many of the next `most` samples a segment with `left` left draws. A timed one with 0 left, which calls
// from a fresh voice on never leave, draws one, so that every run has a sample.
pub fn run_length(left: u32, most: usize) -> usize
    ensures length { result ≡ Segments.run_length left most }
    ensures inside { Segments.Inside result left }
{
    if left == UNTIMED {
        most
    } else {
        most.min(left.max(1) as usize)
    }
}
