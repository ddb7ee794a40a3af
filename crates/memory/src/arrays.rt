// The four arrays, and what they hold for all voices.
ghost use Rattle.std.specs.Prelude.{◌≡◌, min};
ghost use Rattle.memory.specs.Memory as Memory;

use timing::Timing;

// The most voices that a bank has.
pub const MAX_VOICES: usize = 64;

// The lanes of a column: one for each voice, and room for four more.
pub const LANES: usize = 68;

// Five columns, u, r, d, scale and base, so that sixteen lanes are drawn at once; then a record a
// voice, of its settings and plan.
pub const FLOATS: usize = 1236;

pub type Floats = [f32; FLOATS];

// The timing, then a record a voice, of its bends.
pub const BENDS: usize = 131;

pub type Bends = [f64; BENDS];

// A record a voice, of its counts.
pub const COUNTS: usize = 192;

pub type Counts = [u64; COUNTS];

// A column of what each segment has left; how many voices there are; then a record a voice, of its
// segment's length and of codes for what has no number.
pub const CODES: usize = 389;

pub type Codes = [u32; CODES];

// A bank's numbers. They lie in the host's memory, so in the order that C has them in.
#[derive(Clone, Copy)]
#[repr(C)]
pub struct Arrays {
    pub bends: Bends,
    pub counts: Counts,
    pub floats: Floats,
    pub codes: Codes,
}

// How many voices a bank has whose number of voices says `voices`: no more than there is room for.
pub fn count(voices: usize) -> usize
    ensures { result ≡ min voices Memory.max_voices }
{
    voices.min(MAX_VOICES)
}

impl Arrays {
    // Zeros are a bank of no voices.
    pub const ZEROS: Self = Self {
        bends: [0.0; BENDS],
        counts: [0; COUNTS],
        floats: [0.0; FLOATS],
        codes: [0; CODES],
    };

    // How many voices there are.
    pub fn voices(&self) -> usize
        ensures { result ≡ Memory.count_of self.now.codes }
    {
        count(self.codes[68] as usize)
    }

    // The timing.
    pub fn timing(&self) -> Timing
        ensures { result ≡ Memory.timing_at self.now.bends }
    {
        Timing {
            sample_rate: self.bends[0],
            tempo: self.bends[1],
            scale: self.bends[2],
        }
    }
}

// As many voices as `voices`, or as there is room for. It is lent the codes alone, as `put_timing` the bends, so
// that nothing has to be said of the other arrays.
pub fn put_voices(c: &mut Codes, voices: usize)
    ensures { Memory.VoicesPut (min voices Memory.max_voices) c.old c.new }
{
    c[68] = count(voices) as u32;
}

pub fn put_timing(k: &mut Bends, timing: Timing)
    ensures { Memory.TimingPut timing k.old k.new }
{
    k[0] = timing.sample_rate;
    k[1] = timing.tempo;
    k[2] = timing.scale;
}
