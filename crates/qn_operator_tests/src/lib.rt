//! Tests of sites, operator sums, chains, automata and generated workloads.
#![tactic(auto)]

#[cfg(test)]
mod automata;
#[cfg(test)]
mod chains;
#[cfg(test)]
mod generated;
#[cfg(test)]
mod sites;
#[cfg(test)]
mod sums;
