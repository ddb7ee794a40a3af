// Spare lanes: those of the last group that are no voices are made silent, so that drawing treats all
// lanes of a group alike.
ghost use Rattle.std.specs.Prelude.{min};
ghost use Rattle.memory.specs.Memory as Memory;
ghost use Rattle.rows.specs.Rows as Rows;
ghost use Rattle.rows.specs.Strides as Strides;

use crate::strides::groups;
use memory::{Floats, LANES, count};

// Makes the spare lanes of the last group silent.
pub fn clear_spare(f: &mut Floats, voices: usize)
    ensures { Rows.Cleared (min voices Memory.max_voices) (Strides.stride_of (min voices Memory.max_voices)) f.old f.new }
{
    for w in count(voices)..16 * groups(voices) {
        f[w] = 0.0;
        f[w + LANES] = 1.0;
        f[w + 2 * LANES] = 0.0;
        f[w + 3 * LANES] = 0.0;
        f[w + 4 * LANES] = 0.0;
    }
}
