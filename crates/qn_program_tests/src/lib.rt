//! Tests of the program's call over sources and sinks in memory.
#![tactic(auto)]

#[cfg(test)]
mod documents;
#[cfg(test)]
mod electrons;
#[cfg(test)]
mod ends;
#[cfg(test)]
mod rows;
#[cfg(test)]
mod words;
