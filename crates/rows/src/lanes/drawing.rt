// Rows drawn, into floats or into bytes. A group's places are given by `at` and `stride` within the whole output,
// since those of other groups lie between them.
ghost use Rattle.std.specs.Prelude.{◌+◌, ◌*◌, ◌≤◌, min, length};
ghost use Rattle.memory.specs.Memory as Memory;
ghost use Rattle.rows.specs.Rows as Rows;
ghost use Rattle.rows.specs.Strides as Strides;

use crate::lanes::places::Place;
use crate::lanes::{BLOCK, Lanes, constant, put};
use crate::strides::groups;
use memory::Floats;

// The rows of the sixteen lanes from lane g on, which take the places from `at` on in each.
fn draw_moving<P: Place<N>, const N: usize>(
    out: &mut [P],
    at: usize,
    stride: usize,
    rows: u32,
    f: &mut Floats,
    g: usize,
)
    requires { Rows.GroupFits N stride at rows (length out.old) g f.old }
    ensures { Rows.GroupDrawn P.past_end N P.cell stride at g rows f.old out.old out.new f.new }
{
    let mut lanes = Lanes::new(f, g);
    for k in 0..rows {
        let y = lanes.next_row();
        put(out, at + k as usize * stride, &P::row_of(&y));
    }
    put(f, g, &lanes.u);
}

// The same of lanes that stay: every row is the first.
fn draw_still<P: Place<N>, const N: usize>(
    out: &mut [P],
    at: usize,
    stride: usize,
    rows: u32,
    f: &Floats,
    g: usize,
)
    requires fits { Rows.GroupFits N stride at rows (length out.old) g f.now }
    requires still { Rows.Still g f.now }
    requires some { 1 ≤ rows }
    ensures { Rows.Laid P.past_end N P.cell stride at rows (λ k i. Rows.drawn_at k f.now (g + i)) out.old out.new }
{
    let row = P::row_of(&Lanes::new(f, g).levels());
    for k in 0..rows {
        put(out, at + k as usize * stride, &row);
    }
}

// Rows of one group after the other.
fn draw_block<P: Place<N>, const N: usize>(out: &mut [P], f: &mut Floats, groups: usize, rows: u32)
    requires { (groups ≤ 4) × (rows * (N * groups) ≤ length out.old) }
    ensures { Rows.Drawn P.past_end N P.cell groups rows f.old out.old out.new f.new }
{
    for q in 0..groups {
        if constant(rows, f, 16 * q) {
            draw_still(out, N * q, N * groups, rows, f, 16 * q);
        } else {
            draw_moving(out, N * q, N * groups, rows, f, 16 * q);
        }
    }
}

// The next `rows` rows of every lane of the voices' groups, from the output's first level on, if it
// has room for them all.
pub fn draw<P: Place<N>, const N: usize>(out: &mut [P], f: &mut Floats, voices: usize, rows: u32)
    ensures { Rows.Drawn P.past_end N P.cell (Strides.groups_of (min voices Memory.max_voices)) (Rows.fitting rows (N * Strides.groups_of (min voices Memory.max_voices)) (length out.old)) f.old out.old out.new f.new }
{
    let groups = groups(voices);
    let stride = N * groups;
    if rows as usize * stride > out.len() {
        return;
    }
    let most = BLOCK / groups as u32;
    let mut done = 0;
    // A block's rows are counted beside its places: `chunks_mut` would have them divided back.
    while done < rows {
        let n = most.min(rows - done);
        draw_block(&mut out[done as usize * stride..], f, groups, n);
        done += n;
    }
}
