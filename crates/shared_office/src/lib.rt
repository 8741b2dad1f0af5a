//! The office that sessions and workers share: as a value that a turnstile keeps, with what each of them does to it while it has it.
#![tactic(auto)]

pub mod computing;
pub mod entries;
pub mod holdings;
pub mod laws;
pub mod shared;

pub use computing::compute;
pub use entries::{Entry, Fixed};
pub use shared::{Found, Looked, Shared};
