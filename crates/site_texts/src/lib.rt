//! The texts of site numbers, read and written: 8 to 15 decimal digits, of which zeros in front count.
#![tactic(auto)]

pub mod sites;
pub mod written;

pub use sites::read_site;
pub use written::{site_digits, write_site};
