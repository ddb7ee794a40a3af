// Plays an event list, of up to 16,384 bytes from standard input, and writes what `printing` has put into a
// text: a line for each frame, or the refusal's number and place, or that the list is too long.
#![tactic(auto)]

ghost use Rattle.std.specs.Prelude.{◌≤◌, length, IfOk};

use std::io;
use std::io::{Read, Write};

// Reads until the bytes are full or the input ends. Answers how many it put at their start.
fn read_full(from: &mut impl Read, bytes: &mut [u8]) -> io::Result<usize>
    ensures { IfOk result (λ n. n ≤ length bytes.new) }
{
    // A read may give fewer bytes than there is room for, so no range has the steps.
    let mut done = 0;
    while done < bytes.len() {
        let n = from.read(&mut bytes[done..])?;
        if n == 0 {
            break;
        }
        done += n;
    }
    Ok(done)
}

fn main(rt: HostRuntime) -> io::Result<()> {
    // A byte more than the longest list shows that there is more.
    let mut list = [0; printing::MOST_BYTES + 1];
    let len = read_full(&mut rt.stdin(), &mut list)?;
    let mut text = [0; printing::ROOM];
    let written = printing::print(&mut text, &list[..len]);
    rt.stdout().write_all(&text[..written])
}
