//! Tests of the ground: bytes, numbers, signs, charges, legs and shapes, and the plain program that sums a network.
#![tactic(auto)]

#[cfg(test)]
mod bytes;
#[cfg(test)]
mod charges;
#[cfg(test)]
mod legs;
#[cfg(test)]
mod numbers;
#[cfg(test)]
mod plain;
#[cfg(test)]
mod shapes;
#[cfg(test)]
mod signs;
