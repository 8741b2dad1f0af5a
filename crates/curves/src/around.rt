//! The entries of a series about an instant: found by one search, they tell whether one there bears on a span.

ghost use Rattle.std.specs.Prelude.{◌≡◌, option_map};
ghost use Rattle.curves.specs.Bearing.{bears_between};

use crate::entries::{Entry, is_led_to, reaches};
use fixed_units::Second;

/// The entries of a series about an instant.
#[derive(Clone, Copy, Debug)]
pub struct Around<'a> {
    /// The instant.
    pub at: Second,
    /// The last entry before it, if there is one.
    pub before: Option<&'a Entry>,
    /// The entry at it, if one stands there.
    pub here: Option<&'a Entry>,
    /// The first entry after it, if there is one.
    pub after: Option<&'a Entry>,
}

impl Around<'_> {
    /// Whether an entry at the instant, between the one before it and the one after it, bears on the instants from `lo` to
    /// `hi`, or would if one stood there.
    pub fn bears(&self, lo: Second, hi: Second) -> bool
        ensures { result ≡ bears_between lo hi (option_map (λ e. e.now) self.now.before) self.now.at (option_map (λ e. e.now) self.now.after) }
    {
        reaches(self.at, self.after, lo, hi) || is_led_to(self.before, self.at, lo, hi)
    }
}
