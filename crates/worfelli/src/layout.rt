// What a host and the library have to agree on before the first call.
ghost use Rattle.std.specs.Prelude.{◌≡◌};
ghost use Rattle.worfelli.specs.Layout as Layout;

use memory::{BENDS, CODES, COUNTS, FLOATS};

// The version of the header that belongs to this library.
#[unsafe(no_mangle)]
pub extern "C" fn worfelli_version() -> u32
    ensures { result ≡ Layout.version }
{
    1
}

// The bytes of a bank in the host's memory.
#[unsafe(no_mangle)]
pub extern "C" fn worfelli_bank_size() -> usize
    ensures { result ≡ Layout.bank_size }
{
    8 * (BENDS + COUNTS) + 4 * (FLOATS + CODES) + 4
}
