//! The draws: a linear congruential generator.

ghost use Rattle.std.specs.Prelude.{◌≡◌, ◌<◌, ◌≤◌, ◌^◌, ◌-ℤ◌, pos, map, IfOk, OnOk};
ghost use Rattle.std.specs.List.{range_with_len};
ghost use Rattle.qn_gen.specs.Workload.{drawn, turned};

use qn_gauss::Gauss;
use std::alloc::{AllocError, Global};

/// The modulus of the generator.
const MODULUS: u64 = 1 << 31;

/// The generator. What is still to be drawn is what the seed `x` gives.
#[derive(Debug, Drop)]
pub(crate) struct Draws {
    pub(crate) x: u64,
    ghost in_range: { x < 2 ^ 31 },
}

/// A whole number up to 4, less 2.
fn centred(value: u64) -> Gauss
    requires { value ≤ 4 }
    ensures { result ≡ record { re = pos value -ℤ pos 2; im = pos 0 } }
{
    match Gauss::new(value as i128 - 2, 0) {
        Some(number) => number,
        None => unreachable!(),
    }
}

impl Draws {
    /// The draws of a seed.
    pub(crate) fn new(seed: u32) -> Draws
        ensures { result.x ≡ turned seed 0 }
    {
        Draws {
            x: u64::from(seed) % MODULUS,
        }
    }

    /// The next draw, from -2 to 2.
    pub(crate) fn next(&mut self) -> Gauss
        ensures value { result ≡ drawn self.old.x 0 }
        ensures state { self.new.x ≡ turned self.old.x 1 }
    {
        let x = (1_103_515_245 * self.x + 12_345) % MODULUS;
        self.x = x;
        centred(x / 65_536 % 5)
    }

    /// The next draws.
    pub(crate) fn take(&mut self, alloc: Global, count: usize) -> Result<Vec<Gauss>, AllocError>
        ensures values { IfOk result (λ v. v.items ≡ map (drawn self.old.x) (range_with_len 0 count)) }
        ensures state { OnOk result (self.new.x ≡ turned self.old.x count) }
    {
        let mut numbers = Vec::with_capacity(alloc, count)?;
        for _ in 0..count {
            numbers.push(self.next())?;
        }
        Ok(numbers)
    }
}
