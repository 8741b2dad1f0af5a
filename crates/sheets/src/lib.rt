//! The text of a primary computation sheet: what the value of a day says, in lines of ASCII.
#![tactic(auto)]

mod parts;
mod sheets;

pub use sheets::sheet_text;
