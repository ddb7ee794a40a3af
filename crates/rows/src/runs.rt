// Runs: a run ends with the first segment that ends, so within it a lane's level is u × scale + base
// and its u becomes u × r + d.
ghost use Rattle.std.specs.Prelude.{◌≡◌, ◌-◌, min};
ghost use Rattle.filled.specs.Filled.{Filled};
ghost use Rattle.memory.specs.Memory as Memory;
ghost use Rattle.rows.specs.Runs as Runs;

use curve::UNTIMED;
use memory::{Codes, count};

// How many rows can be drawn before a voice's segment ends; UNTIMED if none is timed.
pub fn until_end(c: &Codes, voices: usize) -> u32
    ensures length { result ≡ Runs.until_end (min voices Memory.max_voices) c.now }
    ensures counts { Runs.Counts (min voices Memory.max_voices) c.now }
{
    let mut run = UNTIMED;
    for left in &c[..count(voices)] {
        run = run.min((*left).max(1));
    }
    run
}

// What a segment has left after a run that is no longer.
fn left_after(left: u32, run: u32) -> u32
    ensures { result ≡ Runs.left_after left run }
{
    if left == UNTIMED {
        return UNTIMED;
    }
    left.saturating_sub(run)
}

// Counts a run off what each voice's segment has left.
pub fn count_down(c: &mut Codes, voices: usize, run: u32)
    ensures { Filled 0 (λ v. Runs.left_after (Memory.left_at c.old v) run) 0 (min voices Memory.max_voices) c.old c.new }
{
    for left in &mut c[..count(voices)] {
        *left = left_after(*left, run);
    }
}

// The first voice from `first` on whose segment has ended; else `voices`, or `first` if that is more.
pub fn next_ended(c: &Codes, voices: usize, first: usize) -> usize
    ensures { result ≡ Runs.next_ended (min voices Memory.max_voices - first) c.now first }
{
    let end = count(voices);
    for v in first..end {
        if c[v] == 0 {
            return v;
        }
    }
    end.max(first)
}
