//! Tests of networks: their members, their plans, and their values against the plain program.
#![tactic(auto)]

#[cfg(test)]
mod answers;
#[cfg(test)]
mod comparing;
#[cfg(test)]
mod documents;
#[cfg(test)]
mod members;
#[cfg(test)]
mod plain;
