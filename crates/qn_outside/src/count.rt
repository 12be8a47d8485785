//! Counts that stop at their last value.

ghost use Rattle.std.specs.Prelude.{◌≡◌};
ghost use Rattle.qn_outside.specs.Faults.{count_after};

// The count after one more.
pub(crate) fn count_after(count: u64) -> u64
    ensures { result ≡ count_after count }
{
    count.saturating_add(1)
}
