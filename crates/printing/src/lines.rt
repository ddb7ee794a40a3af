// The lines that the program `play` prints, and all of them for a list.
ghost use Rattle.std.specs.Prelude.{◌≡◌, ℕ, ◌+◌, ◌*◌, ◌/◌, ◌≤◌, length};
ghost use Rattle.settings.specs.Refusals as Refusals;
ghost use Rattle.printing.specs.Lines as Lines;
ghost use Rattle.printing.specs.Text as Text;

use crate::digits::{decimal, hexadecimal};
use crate::text::put;
use crate::{MOST_BYTES, MOST_LEVELS, ROOM};
use settings::Refusal;

// The bits of level v, whose lowest byte comes first.
#[tactic(auto, using(events::proofs::Numbers::four_bytes))]
fn bits(bytes: &[u8], v: usize) -> u32
    requires { 4 * v + 4 ≤ length bytes.now }
    ensures { result ≡ Lines.bits_in bytes.now v }
{
    let at = 4 * v;
    u32::from_le_bytes([bytes[at], bytes[at + 1], bytes[at + 2], bytes[at + 3]])
}

// A space and the bits of a level.
fn level(to: &mut [u8], bits: u32) -> usize
    ensures bytes { to.new ≡ Text.put (Lines.level bits) to.old }
    ensures count { result ≡ Text.bytes_put (Lines.level bits) to.old }
{
    let at = put(to, b" ");
    at + put(&mut to[at..], &hexadecimal(bits))
}

// The levels of a frame, four bytes to each.
#[tactic(auto, unfolding(crate::specs::Text::put))]
fn levels(to: &mut [u8], bytes: &[u8]) -> usize
    ensures bytes { to.new ≡ Text.put (Text.each (length bytes.now / 4) (λ v. Lines.level (Lines.bits_in bytes.now v))) to.old }
    ensures count { result ≡ Text.bytes_put (Text.each (length bytes.now / 4) (λ v. Lines.level (Lines.bits_in bytes.now v))) to.old }
{
    let mut at = 0;
    for v in 0..bytes.len() / 4 {
        at += level(&mut to[at..], bits(bytes, v));
    }
    at
}

// The line of a frame: its number and its voices' levels, four bytes to each.
pub fn frame(to: &mut [u8], number: u64, bytes: &[u8]) -> usize
    ensures bytes { to.new ≡ Text.put (Lines.frame number (length bytes.now / 4) (Lines.bits_in bytes.now)) to.old }
    ensures count { result ≡ Text.bytes_put (Lines.frame number (length bytes.now / 4) (Lines.bits_in bytes.now)) to.old }
{
    let mut at = decimal(to, number);
    at += levels(&mut to[at..], bytes);
    at + put(&mut to[at..], b"\n")
}

// The line of a refused list: the refusal's number, and the first byte of the record.
pub fn refusal(to: &mut [u8], refusal: Refusal, place: u64) -> usize
    ensures bytes { to.new ≡ Text.put (Lines.refusal (Refusals.number refusal) place) to.old }
    ensures count { result ≡ Text.bytes_put (Lines.refusal (Refusals.number refusal) place) to.old }
{
    let mut at = put(to, b"refused ");
    at += decimal(&mut to[at..], refusal.number() as u64);
    at += put(&mut to[at..], b" at ");
    at += decimal(&mut to[at..], place);
    at + put(&mut to[at..], b"\n")
}

// The lines of so many frames, whose rows stand in `out` one after the other.
#[tactic(auto, unfolding(crate::specs::Text::put))]
fn frames(to: &mut [u8], out: &[u8], frames: usize, voices: usize, stride: usize) -> usize
    requires { (voices ≤ stride) × (4 * (frames * stride) ≤ length out.now) }
    ensures bytes { to.new ≡ Text.put (Lines.frames (Lines.bits_in out.now) voices stride frames) to.old }
    ensures count { result ≡ Text.bytes_put (Lines.frames (Lines.bits_in out.now) voices stride frames) to.old }
{
    let mut at = 0;
    for k in 0..frames {
        let row = &out[4 * (k * stride)..];
        at += frame(&mut to[at..], k as u64, &row[..4 * voices]);
    }
    at
}

// All that is printed for a list: its frames or its refusal. There is room for it in a slice of ROOM bytes.
pub fn print(to: &mut [u8], list: &[u8]) -> usize
    ensures bytes { to.new ≡ Text.put (Lines.printed list.now) to.old }
    ensures count { result ≡ Text.bytes_put (Lines.printed list.now) to.old }
    ensures room { length (Lines.printed list.now) ≤ ROOM }
{
    if list.len() > MOST_BYTES {
        return put(to, b"too long\n");
    }
    let mut out = [0; 4 * MOST_LEVELS];
    let checked = checking::check(list, out.len());
    let passed = checked.passed;
    if let Err(refused) = checked.verdict {
        return refusal(to, refused, passed.at as u64);
    }
    player::play(list, &mut out);
    let voices = passed.known.voices;
    frames(
        to,
        &out,
        passed.frames as usize,
        voices,
        bank::stride_of(voices),
    )
}
