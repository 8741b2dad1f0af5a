//! Pictures of numbers in whole units: axes with round ranges, curves with gaps that are thinned by columns, and the text that a picture
//! is written as.
#![tactic(auto)]

pub mod axes;
pub mod columns;
pub mod curves;
pub mod escapes;
pub mod laws;
pub mod parts;
pub mod ranges;
pub mod steps;

pub use axes::Axis;
pub use columns::{Point, Stroke, write_path};
pub use curves::{Sample, write_curve};
pub use escapes::write_escaped;
pub use parts::{Part, write_parts};
pub use ranges::Range;
pub use steps::round_range;
