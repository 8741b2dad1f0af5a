//! Sessions: messages are read from a source one after another, and each is replied to on a sink, over an office that nobody else asks or one
//! behind a lock.
#![tactic(auto)]

mod answers;
mod asked;
mod behind;
mod days;
pub mod laws;
pub mod sessions;
pub mod shared;

pub use sessions::{SessionEnd, session_alone, stands_still};
pub use shared::session;
