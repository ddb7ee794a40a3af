// Numbers in the bytes of a list, the lowest byte first. They are read by their place in the whole list, as the
// definitions have it: a slice for each would be no plainer, since all would have to be shifted back.
ghost use Rattle.std.specs.Prelude.{◌≡◌, ◌+◌, ◌≤◌, length};
ghost use Rattle.numbers.specs.Bytes as Bytes;
ghost use Rattle.events.specs.Format as Format;

#[tactic(auto, using(crate::proofs::Numbers::four_bytes))]
pub(crate) fn u32_at(list: &[u8], at: usize) -> u32
    requires { at + 4 ≤ length list.now }
    ensures { result ≡ Bytes.number 4 list.now at }
{
    u32::from_le_bytes([list[at], list[at + 1], list[at + 2], list[at + 3]])
}

// Beside `u32_at`: one over the count of bytes, by `first_chunk`, makes the check of settings take half as long again.
#[tactic(auto, using(crate::proofs::Numbers::eight_bytes))]
fn u64_at(list: &[u8], at: usize) -> u64
    requires { at + 8 ≤ length list.now }
    ensures { result ≡ Bytes.number 8 list.now at }
{
    u64::from_le_bytes([
        list[at],
        list[at + 1],
        list[at + 2],
        list[at + 3],
        list[at + 4],
        list[at + 5],
        list[at + 6],
        list[at + 7],
    ])
}

pub(crate) fn f32_at(list: &[u8], at: usize) -> f32
    requires { at + 4 ≤ length list.now }
    ensures { result ≡ Format.single list.now at }
{
    numbers::f32_from_bits(u32_at(list, at))
}

pub(crate) fn f64_at(list: &[u8], at: usize) -> f64
    requires { at + 8 ≤ length list.now }
    ensures { result ≡ Format.double list.now at }
{
    numbers::f64_from_bits(u64_at(list, at))
}
