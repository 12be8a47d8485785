//! The generated workload: two states and an operator sum on a row of fermion sites, from a seed.
//!
//! For the command `gen` and for measurements. It hands on the same workload for the same seed, on every machine.
#![tactic(auto)]

ghost use Rattle.std.specs.Prelude.{◌≡◌, IfOk};
ghost use Rattle.qn_gen.specs.Workload.{generated_bra, generated_ket, generated_sum};

mod draw;
mod links;
mod sizes;
mod state;
mod sum;
mod tensor;

use crate::draw::Draws;
use crate::links::{fermions, legs_of};
use crate::sizes::site_count;
use crate::state::drawn_state;
use crate::sum::operator_sum;
use qn_mps::Chain;
use qn_opsum::OpSum;
use std::alloc::{AllocError, Global};

/// Two states on a row of fermion sites and an operator sum on them.
#[derive(Debug, Drop)]
pub struct Workload {
    pub sum: OpSum<1>,
    pub bra: Chain<1>,
    pub ket: Chain<1>,
}

/// The workload of a seed.
pub fn generate(alloc: Global, seed: u32) -> Result<Workload, AllocError>
    ensures sum { IfOk result (λ w. w.sum ≡ generated_sum seed) }
    ensures bra { IfOk result (λ w. w.bra ≡ generated_bra seed) }
    ensures ket { IfOk result (λ w. w.ket ≡ generated_ket seed) }
{
    let count = site_count(seed);
    let group = fermions();
    let mut draws = Draws::new(seed);
    let sum = operator_sum(alloc, &group, count, &mut draws)?;
    let sites = legs_of(alloc, sum.sites())?;
    let bra = drawn_state(alloc, &group, &sites, count, &mut draws)?;
    let ket = drawn_state(alloc, &group, &sites, count, &mut draws)?;
    Ok(Workload { sum, bra, ket })
}
