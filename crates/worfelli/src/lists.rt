// Whole lists: what they hold, and playing them.
ghost use Rattle.std.specs.Prelude.{◌≡◌, length};
ghost use Rattle.player.specs.Playing as Playing;
ghost use Rattle.worfelli.specs.Lists as Lists;

use checking::Checked;

// How many voices and frames a list has, so that a host can make room for it. Answers 0, or the number
// that refuses it however long the output is, and then leaves both as they were.
#[unsafe(no_mangle)]
pub extern "C" fn worfelli_list_info(list: &[u8], voices: &mut usize, frames: &mut u64) -> u32
    ensures refusal { result ≡ (Lists.info list.now).refusal }
    ensures voices { voices.new ≡ Lists.voices list.now voices.old }
    ensures frames { frames.new ≡ Lists.frames list.now frames.old }
{
    // However long the output is: the longest that there is.
    let Checked { verdict, passed } = checking::check(list, usize::MAX);
    match verdict {
        Ok(()) => {
            *voices = passed.known.voices;
            *frames = passed.frames;
            0
        }
        Err(refusal) => refusal.number(),
    }
}

// Plays a list into `out`, four bytes a level, the lowest first: frame after frame, each of as many
// levels as the bank has lanes. Answers the frames written, or minus the number of the refusal, which
// leaves `out` as it was.
#[unsafe(no_mangle)]
pub extern "C" fn worfelli_play(list: &[u8], out: &mut [u8]) -> i64
    ensures result { result ≡ Playing.result list.now (length out.old) }
    ensures output { out.new ≡ Playing.output list.now out.old }
{
    player::play(list, out)
}

// The first byte of the record for which a list is refused, for an output of so many bytes; the
// list's length if it is not refused.
#[unsafe(no_mangle)]
pub extern "C" fn worfelli_refused_at(list: &[u8], out_len: usize) -> u64
    ensures { result ≡ Playing.refused_at list.now out_len }
{
    player::refused_at(list, out_len)
}
