//! Fractions of whole numbers.

/// A fraction of whole numbers.
#[derive(Clone, Copy)]
pub struct Fraction {
    /// The numerator.
    pub num: i64,
    /// The denominator, above 0.
    pub den: i64,
}
