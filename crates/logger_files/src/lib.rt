//! A data logger's comma-separated file is read by a profile: what may be put into an office becomes requests, and of every other row it is
//! said why it is not among them.
#![tactic(auto)]

pub mod bringing;
pub mod digests;
mod fields;
pub mod laws;
mod lines;
pub mod profiles;
pub mod reasons;
pub mod requests;
pub mod rows;
mod times;
mod values;

pub use bringing::{Brought, bring};
pub use profiles::{Profile, ProfileFault, TableFault, read_profile, read_table};
pub use reasons::{FileFault, Reason};
