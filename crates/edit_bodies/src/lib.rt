//! The JSON body of an edit, read: which edit it is, or the first of its members that is missing or ill formed.
#![tactic(auto)]

pub mod bodies;
mod comments;
mod compact_form;
mod curve_points;
mod days;
pub mod faults;
mod grammars;
mod kinds;
mod least_covers;
mod measurements;
pub mod members;
mod numbers;
mod periods;
pub mod rating_rows;
mod reading_rows;
mod reviews;
mod rows;
mod spans;
mod trees;
mod usual_form;

pub use bodies::read_edit;
pub use faults::BodyFault;
pub use members::Member;
pub use rating_rows::rating_number_from;
