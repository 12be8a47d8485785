//! Charges of a product of up to four Abelian groups, each U(1) or Z_n, bosonic or fermionic.
//!
//! For every crate that has legs. It hands on `Group`, `Charge` and the trait `Abelian`, and the laws of charges.
#![tactic(auto)]

mod abelian;
mod charge;
mod factor;
mod fault;
mod group;
mod laws;

pub use abelian::Abelian;
pub use charge::Charge;
pub use factor::Factor;
pub use fault::GroupFault;
pub use group::Group;
pub use laws::charge_laws;
