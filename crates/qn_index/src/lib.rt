//! Directed legs of sectors, the tuples of sectors that a flux admits, and places in their blocks.
//!
//! For every crate that has tensors. It hands on `Leg`, `Tuple`, the lists of admissible tuples and their widths, and
//! the limits on legs and shapes.
#![tactic(auto)]

pub mod laws;
mod leg;
mod net;
mod partial;
mod place;
mod shape;
mod table;
mod tuple;

pub use leg::{
    Clash, Dir, Leg, LegFault, MAX_CHARGE, MAX_SECTORS, Sector, copy_legs, known_all, same_sectors,
};
pub use net::{net_charge, signed_charge};
pub use place::{block_len, inner_of, offset_of};
pub use shape::{Extent, MAX_ENTRIES, MAX_LEGS, MAX_TUPLES, admissible, is_admissible, width};
pub use tuple::Tuple;
