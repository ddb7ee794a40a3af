// How many groups of sixteen lanes hold a bank's voices: sixteen, as many as the Rust's widest SIMD level has.
ghost use Rattle.std.specs.Prelude.{◌≡◌, min};
ghost use Rattle.memory.specs.Memory as Memory;
ghost use Rattle.rows.specs.Strides as Strides;

// One group at least. As a formula, with `div_ceil`, it was tried: a draw of one row then takes longer.
pub fn groups(voices: usize) -> usize
    ensures { result ≡ Strides.groups_of (min voices Memory.max_voices) }
{
    match voices {
        ..=16 => 1,
        ..=32 => 2,
        ..=48 => 3,
        _ => 4,
    }
}
