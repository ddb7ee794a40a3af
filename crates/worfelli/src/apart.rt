// A live bank whose four arrays lie apart, as a host may keep them: each call puts them together, and what it
// leaves back into each. That is 18 KiB copied for a call, and half of it for a reading, since `bank`'s methods are
// of the arrays in one struct; a host that has that uses the functions of `calls` and `readings`.
pub(crate) mod calls;
pub(crate) mod readings;

ghost use Rattle.std.specs.Prelude.{◌≡◌};
ghost use Rattle.worfelli.specs.Apart as Apart;

use bank::Bank;
use memory::{Bends, Codes, Counts, Floats};

// The bank becomes the one that they are. It is lent, since one that is handed out would be made twice, and two do
// not fit in the stack that hosts are told of.
#[inline(always)]
fn gather(bank: &mut Bank, f: &Floats, k: &Bends, n: &Counts, c: &Codes)
    ensures { bank.new.arrays ≡ Apart.arrays f.now k.now n.now c.now }
{
    bank.arrays.floats = *f;
    bank.arrays.bends = *k;
    bank.arrays.counts = *n;
    bank.arrays.codes = *c;
}

// Each array becomes the bank's.
fn put_back(bank: &Bank, f: &mut Floats, k: &mut Bends, n: &mut Counts, c: &mut Codes)
    ensures { Apart.arrays f.new k.new n.new c.new ≡ bank.now.arrays }
{
    *f = bank.arrays.floats;
    *k = bank.arrays.bends;
    *n = bank.arrays.counts;
    *c = bank.arrays.codes;
}
