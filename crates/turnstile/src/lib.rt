//! A lock round a value whose history only grows, for threads. Each party has a pass; what a pass has seen of the history, its
//! share of the whole and the tally of what its holdings added exist in proofs alone.
#![tactic(auto)]

mod held;
mod kept;
mod lock;
mod parties;
mod steps;
mod turns;

pub use held::Held;
pub use kept::Kept;
pub use lock::Turnstile;
pub use parties::{Party, Pass};
pub use turns::NoMemory;
