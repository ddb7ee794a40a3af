// What the program `play` prints, as text in a lent slice. No contract can say what a program writes
// to its output: the program writes out what `print` has put there, and no more.
#![tactic(auto)]

mod digits;
mod lines;
mod text;

pub use digits::{decimal, hexadecimal};
pub use lines::{frame, print, refusal};

// The longest list that is played, in bytes, and the levels that it is played into.
pub const MOST_BYTES: usize = 16384;

const MOST_LEVELS: usize = 16384;

// The bytes of the longest text: 1,024 frames of 16 voices.
pub const ROOM: usize = 151466;
