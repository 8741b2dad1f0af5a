//! Small tests of an office that is shared: what no row of data can tell. Other tests share its offices.
#![tactic(auto)]

#[cfg(test)]
mod drained;
#[cfg(test)]
mod newer_seen;
pub mod offices;
