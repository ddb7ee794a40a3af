// Saturating sums and differences of counts: neither overflows.
ghost use Rattle.std.specs.Prelude.{◌≡◌, ◌+◌, ◌-◌};
ghost use Rattle.numbers.specs.Counts as Counts;

// a + b, saturating at the largest u64.
pub fn saturating_add(a: u64, b: u64) -> u64
    ensures { result ≡ Counts.saturated (a + b) }
{
    a.saturating_add(b)
}

// a - b, saturating at 0: the natural numbers' truncated difference.
pub fn saturating_sub(a: u64, b: u64) -> u64
    ensures { result ≡ a - b }
{
    a.saturating_sub(b)
}
