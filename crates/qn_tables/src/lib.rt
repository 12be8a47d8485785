//! Tests that cross crates. On small documents of all kinds of sites the automaton, the overlap and the expectation
//! are compared with sums over all basis states that are written out here, and a correlator under replacement with networks
//! made anew.
#![tactic(auto)]

#[cfg(test)]
mod amplitudes;
#[cfg(test)]
mod basis;
#[cfg(test)]
mod correlators;
#[cfg(test)]
mod documents;
#[cfg(test)]
mod number;
#[cfg(test)]
mod strings;
#[cfg(test)]
mod tests;
