//! What a source and a sink in memory share: calls that fail by their number, and copying.

ghost use Rattle.std.specs.Prelude.{◌≡◌, ◌+◌, ◌==◌, length, min, take, drop, ◌++◌};
ghost use Rattle.std.specs.List.{list_any};
ghost use Rattle.qn_outside.specs.InMemory.{is_listed};

fn is_among(numbers: &[u64], number: u64) -> bool
    ensures { result ≡ list_any (λ n. n == number) numbers.now }
{
    numbers.iter().any(|n| *n == number)
}

// Whether the next call, after so many, is to fail by its number.
pub(crate) fn is_listed(failing: &[u64], calls: u64) -> bool
    ensures { result ≡ is_listed failing.now calls }
{
    calls < u64::MAX && is_among(failing, calls + 1)
}

// Copies at most so many bytes from the front to the front, and says how many.
pub(crate) fn copy_front(from: &[u8], to: &mut [u8], most: usize) -> usize
    ensures count { result ≡ min (min (length to.old) most) (length from.now) }
    ensures copied { to.new ≡ take result from.now ++ drop result to.old }
{
    let n = to.len().min(most).min(from.len());
    to[..n].copy_from_slice(&from[..n]);
    n
}
