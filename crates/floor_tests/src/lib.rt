//! Small tests of what no row of data can tell: values of no size, room that no memory holds, threads, and the system's own files, streams and connections.
#![tactic(auto)]

#[cfg(test)]
mod cabinets;
#[cfg(test)]
mod columns;
#[cfg(test)]
mod counted;
#[cfg(test)]
mod disks;
#[cfg(test)]
mod doors;
#[cfg(test)]
mod histories;
pub mod numbers;
#[cfg(test)]
mod spawners;
#[cfg(test)]
mod streams;
#[cfg(test)]
mod turns;
