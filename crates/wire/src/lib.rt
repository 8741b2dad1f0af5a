//! HTTP on a stream of bytes: the messages that it holds, and the heads of replies.
#![tactic(auto)]

pub mod framing;
pub mod incoming;
pub mod limits;
pub mod looking;
pub mod messages;
pub mod passing;
pub mod replies;

pub use incoming::Incoming;
pub use messages::{Message, Verb};
pub use replies::{Kind, MALFORMED_REPLY, NO_MEMORY_REPLY, write_head};
