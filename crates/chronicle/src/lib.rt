//! What exists in proofs alone, so that contracts can be equations on it: a history of what has happened to a value, and a counter of
//! steps by which they say what a call costs.
#![tactic(auto)]

mod counter;
mod past;

pub use counter::Steps;
pub use past::Chronicle;
