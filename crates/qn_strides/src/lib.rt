//! Entries of blocks as strided arrays, and sums along them.
//!
//! For traces and contractions of pairs. It hands on strides, places and the sum over couples, with its laws.
#![tactic(auto)]

mod axis;
mod places;
mod plan;
mod sum;

pub use axis::{Kept, Summed, start_of};
pub use places::{
    couples_meet, goal_places, has_sectors, in_place, is_coupled, legs_at, open_places, sector_at,
    sector_parities,
};
pub use plan::{is_minus, kept_of, stride_at, strides_of, summed_of};
pub use sum::{add_along, entry_at, place_at, with_sign, zero};
