ghost use Rattle.std.specs.Prelude.{◌≡◌};
ghost use Rattle.far_outside.specs.Faults.{counted};

/// One more than the count; at the greatest `u64` it stays.
pub fn one_more(count: u64) -> u64
    ensures { result ≡ counted count }
{
    count.saturating_add(1)
}
