// Plays event lists from standard input and answers each by what a host would get. The files stdin
// and stdout hold lists with the answers of a player over the Rust's bank.
//
// A list: its length and the output's length in bytes, four bytes each, the lowest first; then its
// bytes, at most 16,384. Its answer: the result and the place of the refusal, eight bytes each, then
// the output, at most 65,536 bytes, in which byte i was i % 251 before the call.
#![tactic(auto)]

ghost use Rattle.std.specs.Prelude.{◌≡◌, ◌≤◌, length};

use std::io;
use std::io::{ErrorKind, Read, Write};

// A length in four bytes, at most `most`.
fn length_of(bytes: &[u8], most: usize) -> usize
    requires { length bytes.now ≡ 4 }
    ensures { result ≤ most }
{
    let n = u32::from_le_bytes([bytes[0], bytes[1], bytes[2], bytes[3]]);
    (n as usize).min(most)
}

fn fill(out: &mut [u8]) {
    for (i, byte) in out.iter_mut().enumerate() {
        *byte = (i % 251) as u8;
    }
}

fn answer(to: &mut impl Write, list: &[u8], out: &mut [u8]) -> io::Result<()> {
    fill(out);
    let result = player::play(list, out);
    to.write_all(&result.to_le_bytes())?;
    to.write_all(&player::refused_at(list, out.len()).to_le_bytes())?;
    to.write_all(out)
}

// Reads until the bytes are full. Whether the input had so many. A library for it, which `replay` has too, is no plainer.
fn read_whole(from: &mut impl Read, bytes: &mut [u8]) -> io::Result<bool> {
    match from.read_exact(bytes) {
        Ok(()) => Ok(true),
        Err(e) if e.kind() == ErrorKind::UnexpectedEof => Ok(false),
        Err(e) => Err(e),
    }
}

fn main(rt: HostRuntime) -> io::Result<()> {
    let mut head = [0u8; 8];
    let mut list = [0u8; 16384];
    let mut out = [0u8; 65536];
    for _ in 0..u64::MAX {
        if !read_whole(&mut rt.stdin(), &mut head)? {
            return Ok(());
        }
        let len = length_of(&head[..4], 16384);
        let out_len = length_of(&head[4..], 65536);
        if !read_whole(&mut rt.stdin(), &mut list[..len])? {
            return Ok(());
        }
        answer(&mut rt.stdout(), &list[..len], &mut out[..out_len])?;
    }
    Ok(())
}
