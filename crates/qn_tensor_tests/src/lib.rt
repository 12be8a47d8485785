//! Tests of tensors held in blocks: blocks and combiners, and each step of a contraction.
#![tactic(auto)]

#[cfg(test)]
mod blocks;
#[cfg(test)]
mod board;
#[cfg(test)]
mod combiners;
#[cfg(test)]
mod contracting;
#[cfg(test)]
mod fusing;
#[cfg(test)]
mod pairing;
#[cfg(test)]
mod permuting;
#[cfg(test)]
mod rows;
#[cfg(test)]
mod tracing;
#[cfg(test)]
mod workers;
