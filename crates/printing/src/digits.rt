// Numbers as digits.
ghost use Rattle.std.specs.Prelude.{◌≡◌};
ghost use Rattle.std.specs.Fmt.{decimal};
ghost use Rattle.printing.specs.Digits as Digits;
ghost use Rattle.printing.specs.Text as Text;

use crate::text::put;

const DIGITS: [u8; 16] = *b"0123456789abcdef";

// A number in base ten: its higher digits, then the last one.
pub fn decimal(to: &mut [u8], n: u64) -> usize
    ensures bytes { to.new ≡ Text.put (decimal n) to.old }
    ensures count { result ≡ Text.bytes_put (decimal n) to.old }
{
    let last = [b'0' + (n % 10) as u8];
    if n < 10 {
        return put(to, &last);
    }
    let at = decimal(to, n / 10);
    at + put(&mut to[at..], &last)
}

// The eight hexadecimal digits of 32 bits, the highest first.
pub fn hexadecimal(bits: u32) -> [u8; 8]
    ensures { result ≡ Digits.hexadecimal 8 bits }
{
    let mut digits = [0; 8];
    let mut rest = bits;
    for i in (0..8).rev() {
        digits[i] = DIGITS[(rest % 16) as usize];
        rest /= 16;
    }
    digits
}
