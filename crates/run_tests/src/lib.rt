//! Small tests of whole runs, of what no row of data can tell: workers that are held at their gate, a client of this machine, and stops.
#![tactic(auto)]

#[cfg(test)]
mod held;
#[cfg(test)]
mod loopback;
#[cfg(test)]
mod meetings;
#[cfg(test)]
mod runs;
#[cfg(test)]
mod stops;
#[cfg(test)]
mod streams;
