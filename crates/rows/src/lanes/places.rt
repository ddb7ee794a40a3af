// Places of a row, and how levels take them: a float each, or four bytes each, its bits, the lowest
// byte first.
ghost use Rattle.std.specs.Prelude.{◌≡◌, ℕ, ◌≤◌, ◌<◌, Float, get_or};
ghost use Rattle.std.specs.Float.{nan};
ghost use Rattle.std.proofs.Common.{rules};
ghost use Rattle.rows.specs.Rows as Rows;
ghost use Rattle.rows.specs.Places as Places;

use crate::lanes::put;

// A place of a row. Sixteen levels take N of them.
pub trait Place<const N: usize>: Copy {
    // What a reading past the end gives.
    ghost past_end: { Self };

    // Place c of a row of levels.
    ghost cell: { (ℕ → Float) → ℕ → Self };

    // Sixteen levels as they are stored.
    fn row_of(y: &[f32; 16]) -> [Self; N]
        ensures { (c : ℕ) → c < N → get_or result c past_end ≡ cell (λ i. get_or y.now i nan) c };

    // The places of groups depend on the levels of those groups alone.
    ghost by_levels: { Places.ByLevels N cell };

    // A place of a later group depends on that group's lanes as the first group's place on its own.
    ghost shifts: { Places.Shifts N cell };

    // So the places of four groups can be counted.
    ghost few: { N ≤ 64 };
}

impl Place<16> for f32 {
    ghost past_end = { nan };

    ghost cell = { Rows.float_cell };

    fn row_of(y: &[f32; 16]) -> [f32; 16] {
        *y
    }

    ghost by_levels = { Places.float_by_levels };

    ghost shifts = { Places.float_shifts };

    ghost few = { Prim.search rules };
}

impl Place<64> for u8 {
    ghost past_end = { 0 };

    ghost cell = { Rows.byte_cell };

    fn row_of(y: &[f32; 16]) -> [u8; 64] {
        let mut row = [0; 64];
        for i in 0..16 {
            let bits = numbers::f32_to_bits(y[i]);
            put(&mut row, 4 * i, &bits.to_le_bytes());
        }
        row
    }

    ghost by_levels = { Places.byte_by_levels };

    ghost shifts = { Places.byte_shifts };

    ghost few = { Prim.search rules };
}
