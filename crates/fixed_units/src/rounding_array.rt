//! Rounding arrays: which figures a published value keeps.

ghost use Rattle.std.specs.Prelude.{◌≡◌, ◌+◌, ◌≤◌, ◌<◌, ◌↔◌, IsSome, IfSome};
ghost use Rattle.fixed_units.specs.RoundingArray.{IsRoundingArray, digit_at, most_decimals, figures, rounded_off, stage_array};

use crate::decimals::are_digits;
use std::marker::Model;

/// A rounding array, which contracts see as its ten digits. The first nine are the significant figures of
/// a magnitude below 0.01, 0.1, 1, 10, 100, 1,000, 10,000, 100,000, and from there on. The tenth, 0 to 6,
/// is the most decimals.
#[derive(Clone, Copy, Debug, PartialEq, Eq)]
pub struct RoundingArray {
    digits: [u8; 10],
}

impl Model for RoundingArray {
    ghost use Rattle.std.specs.Prelude.{ℕ, List};
    ghost use Rattle.fixed_units.specs.RoundingArray.{IsRoundingArray};

    ghost Value = { List ℕ };

    ghost view = { λ a. a.digits };

    ghost invariant = { λ a. IsRoundingArray a.digits };

    ghost inverse = { λ digits. record { digits = digits } };
}

impl RoundingArray {
    /// The usual array of stages, as the definitions name it: that of `RoundingArray::STAGES`.
    pub fn usual_of_stages() -> RoundingArray
        ensures { result ≡ stage_array }
    {
        RoundingArray::STAGES
    }

    /// `9999999992`, the usual array of stages: nine figures, at most two decimals.
    pub const STAGES: RoundingArray = RoundingArray {
        digits: *b"9999999992",
    };

    /// The array of a text, or `None` exactly where that is not ten digits, the tenth of 0 to 6.
    pub fn read(text: &[u8]) -> Option<RoundingArray>
        ensures range { IsSome result ↔ IsRoundingArray text.now }
        ensures value { IfSome result (λ a. a ≡ text.now) }
    {
        let digits: [u8; 10] = text.try_into().ok()?;
        if are_digits(text) && digits[9] <= b'6' {
            Some(RoundingArray { digits })
        } else {
            None
        }
    }

    /// The ten digits, in ASCII.
    pub fn digits(&self) -> [u8; 10]
        ensures text { result ≡ self.now }
        ensures range { IsRoundingArray self.now }
    {
        self.digits
    }

    /// The most decimals, 0 to 6.
    pub(crate) fn most_decimals(&self) -> u32
        ensures value { result ≡ most_decimals self.now }
        ensures bound { result ≤ 6 }
    {
        u32::from(self.digits[9] - b'0')
    }

    /// The significant figures of a magnitude of so many digits of whole millionths.
    pub(crate) fn figures(&self, digits: u32) -> u32
        ensures value { result ≡ figures self.now digits }
        ensures bound { result ≤ 9 }
    {
        self.digit(digits.saturating_sub(4).min(8) as usize)
    }

    /// How many of these digits are rounded off.
    pub(crate) fn rounded_off(&self, digits: u32) -> u32
        ensures { result ≡ rounded_off self.now digits }
    {
        (6 - self.most_decimals()).max(digits.saturating_sub(self.figures(digits)))
    }

    /// The number that a digit writes.
    fn digit(&self, place: usize) -> u32
        requires { place < 10 }
        ensures value { result ≡ digit_at self.now place }
        ensures bound { result ≤ 9 }
    {
        u32::from(self.digits[place] - b'0')
    }
}
