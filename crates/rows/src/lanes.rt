// Sixteen lanes: taken out of the array and put back, their levels, one row on, and whether they stay. A part of
// an array is given by its first place alone, as in the laws: its length is its type's.
pub(crate) mod drawing;
pub(crate) mod places;
pub(crate) mod spare;

ghost use Rattle.std.specs.Prelude.{◌≡◌, true, ℕ, ◌+◌, ◌-◌, ◌*◌, ◌≤◌, ◌<◌, length, get_or};
ghost use Rattle.std.specs.Float.{nan};
ghost use Rattle.numbers.specs.Constants as Constants;
ghost use Rattle.filled.specs.Filled.{Filled};
ghost use Rattle.memory.specs.Memory as Memory;
ghost use Rattle.rows.specs.Rows as Rows;

use memory::{Floats, LANES};

// The rows of a block where there is one group, and as many fewer as there are more: the output is
// then nearly one stream.
const BLOCK: u32 = 64;

// Fewer rows than this are not worth the test.
const STILL_ROWS: u32 = 4;

// The sixteen numbers from place `from` on.
fn load(f: &Floats, from: usize) -> [f32; 16]
    requires { from ≤ 4 * Memory.lanes + 48 }
    ensures { Rows.Loaded from f.now result }
{
    let mut x = [0.0f32; 16];
    for i in 0..16 {
        x[i] = f[from + i];
    }
    x
}

// Sixteen lanes.
#[derive(Drop)]
struct Lanes {
    u: [f32; 16],
    r: [f32; 16],
    d: [f32; 16],
    scale: [f32; 16],
    base: [f32; 16],
}

impl Lanes {
    // Those from lane g on.
    fn new(f: &Floats, g: usize) -> Lanes
        requires { g ≤ 48 }
        ensures u { Rows.Loaded g f.now result.u }
        ensures r { Rows.Loaded (g + Memory.lanes) f.now result.r }
        ensures d { Rows.Loaded (g + 2 * Memory.lanes) f.now result.d }
        ensures scale { Rows.Loaded (g + 3 * Memory.lanes) f.now result.scale }
        ensures base { Rows.Loaded (g + 4 * Memory.lanes) f.now result.base }
    {
        Lanes {
            u: load(f, g),
            r: load(f, g + LANES),
            d: load(f, g + 2 * LANES),
            scale: load(f, g + 3 * LANES),
            base: load(f, g + 4 * LANES),
        }
    }

    fn levels(&self) -> [f32; 16]
        ensures { Rows.Levels self.now.u self.now.scale self.now.base result }
    {
        let mut y = [0.0f32; 16];
        for i in 0..16 {
            y[i] = curve::level_from(self.u[i], self.scale[i], self.base[i]);
        }
        y
    }

    // The levels, and u one row on. Each product and each sum is rounded by itself, as in the single
    // envelope: a fused one would give other bits. One loop for both, since two take longer.
    fn next_row(&mut self) -> [f32; 16]
        ensures levels { Rows.Levels self.old.u self.old.scale self.old.base result }
        ensures moved { Filled nan (Rows.steps_at self.old.u self.old.r self.old.d) 0 16 self.old.u self.new.u }
        ensures r { self.new.r ≡ self.old.r }
        ensures d { self.new.d ≡ self.old.d }
        ensures scale { self.new.scale ≡ self.old.scale }
        ensures base { self.new.base ≡ self.old.base }
    {
        let mut y = [0.0f32; 16];
        for i in 0..16 {
            let u = self.u[i];
            y[i] = curve::level_from(u, self.scale[i], self.base[i]);
            self.u[i] = curve::next_u(u, self.r[i], self.d[i]);
        }
        y
    }
}

// Puts `part` from place `to` on. A loop, since `copy_from_slice` asks at each row whether the two
// overlap, and takes longer.
fn put<P: Copy, const N: usize>(out: &mut [P], to: usize, part: &[P; N])
    requires { to + N ≤ length out.old }
    ensures { (z : P) → Filled z (λ j. get_or part.now (j - to) z) to (to + N) out.old out.new }
{
    for i in 0..N {
        out[to + i] = part[i];
    }
}

// Whether the sixteen numbers from place `from` on all pass a test. There is no early exit, so that
// several are tested at once.
fn all<T: Fn(f32) -> bool>(f: &Floats, from: usize, test: T) -> bool
    requires inside { from ≤ 4 * Memory.lanes + 48 }
    requires callable { T.IsAlwaysCallable test }
    ensures { result ≡ true → (i : ℕ) → i < 16 → T.post test (get_or f.now (from + i) nan) true }
{
    let mut so_far = true;
    for i in 0..16 {
        so_far = so_far & test(f[from + i]);
    }
    so_far
}

fn is_plus_zero(x: f32) -> bool
    ensures { result ≡ true → x ≡ Constants.zero }
{
    numbers::f32_to_bits(x) == 0
}

// Whether u is +0, r 1 and d 0 in the lanes from lane g on: then every row is the first. One kind of
// compare a loop, and not asked of few rows.
fn constant(rows: u32, f: &Floats, g: usize) -> bool
    requires { g ≤ 48 }
    ensures { result ≡ true → Rows.Still g f.now × (1 ≤ rows) }
{
    rows >= STILL_ROWS
        && all(f, g + 2 * LANES, |d| d == 0.0)
        && all(f, g + LANES, |r| r == 1.0)
        && all(f, g, is_plus_zero)
}
