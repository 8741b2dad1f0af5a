//! Requests as asks of the office, and its answers as the bytes of replies.
#![tactic(auto)]

mod accepted_edits;
pub mod asks;
mod days;
mod departures;
mod failures;
mod json_texts;
mod parameters;
mod rdb_bodies;
pub mod replies;
pub mod routes;
mod stations;
mod tables;

pub use asks::{Ask, Denied};
pub use days::{DayAnswer, DayReply};
pub use failures::code_name;
pub use replies::{Reply, reply_text, write_reply};
pub use routes::Router;
