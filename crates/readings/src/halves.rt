//! Readings that rise, lent in two slices, and what is found in them.

ghost use Rattle.std.specs.Prelude.{◌≡◌, true, false, ◌≤◌, ◌<ℤ◌, ◌≤ℤ◌, length, take, drop, find, reverse, is_some, All};
ghost use Rattle.rising.specs.Ends.{first, last};
ghost use Rattle.rising.specs.Lists.{up_to};
ghost use Rattle.readings.specs.Halves.{joined};
ghost use Rattle.readings.specs.Readings.{IsRising, instant_of, before_instant, from_instant, after_instant, at_instant, in_span, is_used};
ghost use Rattle.readings.specs.Window.{of_day};

use crate::reach::{head, tail};
use crate::{places, used};
use fixed_units::{Reading, Second};

/// Readings that rise, lent in two slices, one behind the other: those before a column's gap and those behind it.
#[derive(Clone, Copy, Debug, Drop)]
pub struct Halves<'a> {
    /// The first of them.
    pub left: &'a [Reading],
    /// Those after these.
    pub right: &'a [Reading],
}

/// Readings about a day.
#[derive(Clone, Copy, Debug, Drop)]
pub(crate) struct Parts<'a> {
    /// Those before the day.
    pub before: Halves<'a>,
    /// Those of the day.
    pub day: Halves<'a>,
    /// Those behind it.
    pub behind: Halves<'a>,
}

impl<'a> Halves<'a> {
    /// How many readings there are.
    pub(crate) fn len(&self) -> usize
        ensures { result ≡ length (joined self.now) }
    {
        self.left.len() + self.right.len()
    }

    /// The first reading.
    pub(crate) fn first(&self) -> Option<Reading>
        ensures { result ≡ first (joined self.now) }
    {
        self.left.first().or(self.right.first()).copied()
    }

    /// The last reading.
    pub(crate) fn last(&self) -> Option<Reading>
        ensures { result ≡ last (joined self.now) }
    {
        self.right.last().or(self.left.last()).copied()
    }

    /// Whether an instant lies no earlier than the right slice begins: then what stands about it stands there, else in the left one.
    pub(crate) fn is_on_right(&self, at: Second) -> bool
        requires { IsRising (joined self.now) }
        ensures right { result ≡ true → All (λ r. r.at <ℤ at) self.now.left.now }
        ensures left { result ≡ false → All (λ r. at <ℤ r.at) self.now.right.now }
    {
        match self.right.first() {
            Some(reading) => reading.at.get() <= at.get(),
            None => false,
        }
    }

    /// How many readings stand before an instant: a search about the place that it would have among readings at even steps.
    #[tactic(auto, using(crate::proofs::HalvesLemmas::front_right, crate::proofs::HalvesLemmas::back_right, crate::proofs::HalvesLemmas::front_left, crate::proofs::HalvesLemmas::back_left))]
    pub(crate) fn count_before(&self, at: Second) -> usize
        requires { IsRising (joined self.now) }
        ensures within { result ≤ length (joined self.now) }
        ensures front { take result (joined self.now) ≡ before_instant at (joined self.now) }
        ensures back { drop result (joined self.now) ≡ from_instant at (joined self.now) }
    {
        if self.is_on_right(at) {
            self.left.len() + places::count_before(self.right, at)
        } else {
            places::count_before(self.left, at)
        }
    }

    /// How many readings stand before an instant, where these may be few: one binary search of the front that they stand in.
    #[tactic(auto, using(crate::proofs::HalvesLemmas::front_right, crate::proofs::HalvesLemmas::back_right, crate::proofs::HalvesLemmas::front_left, crate::proofs::HalvesLemmas::back_left))]
    fn count_few_before(&self, at: Second) -> usize
        requires { IsRising (joined self.now) }
        ensures within { result ≤ length (joined self.now) }
        ensures front { take result (joined self.now) ≡ before_instant at (joined self.now) }
        ensures back { drop result (joined self.now) ≡ from_instant at (joined self.now) }
    {
        if self.is_on_right(at) {
            self.left.len() + places::count_few_before(self.right, at)
        } else {
            places::count_few_before(self.left, at)
        }
    }

    /// How many readings stand before an instant or at it: one binary search.
    pub(crate) fn count_to(&self, at: Second) -> usize
        requires { IsRising (joined self.now) }
        ensures within { result ≤ length (joined self.now) }
        ensures front { take result (joined self.now) ≡ up_to instant_of at (joined self.now) }
        ensures back { drop result (joined self.now) ≡ after_instant at (joined self.now) }
    {
        if self.is_on_right(at) {
            self.left.len() + rising::count_to(self.right, at)
        } else {
            rising::count_to(self.left, at)
        }
    }

    /// So many of the first readings, and the others.
    pub(crate) fn split_at(&self, place: usize) -> (Halves<'a>, Halves<'a>)
        requires { place ≤ length (joined self.now) }
        ensures front { joined result.0 ≡ take place (joined self.now) }
        ensures back { joined result.1 ≡ drop place (joined self.now) }
    {
        let length = self.left.len();
        let (left, behind) = self.left.split_at(place.min(length));
        let (early, right) = self.right.split_at(place.saturating_sub(length));
        (
            Halves { left, right: early },
            Halves {
                left: behind,
                right,
            },
        )
    }

    /// The readings before an instant, and those from it on.
    pub(crate) fn split_at_key(&self, at: Second) -> (Halves<'a>, Halves<'a>)
        requires { IsRising (joined self.now) }
        ensures before { joined result.0 ≡ before_instant at (joined self.now) }
        ensures from { joined result.1 ≡ from_instant at (joined self.now) }
    {
        self.split_at(self.count_before(at))
    }

    /// The same, where few readings may stand before the instant.
    fn split_few_at_key(&self, at: Second) -> (Halves<'a>, Halves<'a>)
        requires { IsRising (joined self.now) }
        ensures before { joined result.0 ≡ before_instant at (joined self.now) }
        ensures from { joined result.1 ≡ from_instant at (joined self.now) }
    {
        self.split_at(self.count_few_before(at))
    }

    /// The readings about a day: the end is searched behind the start alone, and near it first.
    pub(crate) fn parts(&self, a: Second, b: Second) -> Parts<'a>
        requires { IsRising (joined self.now) }
        ensures before { joined result.before ≡ before_instant a (joined self.now) }
        ensures day { joined result.day ≡ of_day a b (joined self.now) }
        ensures behind { a ≤ℤ b → joined result.behind ≡ from_instant b (joined self.now) }
        ensures rising { IsRising (joined result.before) × (IsRising (joined result.day) × IsRising (joined result.behind)) }
    {
        let (before, rest) = self.split_at_key(a);
        let (day, behind) = rest.split_few_at_key(b);
        Parts {
            before,
            day,
            behind,
        }
    }

    /// The readings from an instant on and before another: none where that one is no later.
    pub(crate) fn between(&self, a: Second, b: Second) -> Halves<'a>
        requires { IsRising (joined self.now) }
        ensures { joined result ≡ of_day a b (joined self.now) }
    {
        self.parts(a, b).day
    }

    /// The readings from an instant to another, both included.
    pub(crate) fn span(&self, from: Second, to: Second) -> Halves<'a>
        requires { IsRising (joined self.now) }
        ensures { joined result ≡ in_span from to (joined self.now) }
    {
        let (_early, rest) = self.split_at_key(from);
        let (span, _late) = rest.split_at(rest.count_to(to));
        span
    }

    /// The reading at an instant, if there is one: one binary search.
    pub(crate) fn at(&self, at: Second) -> Option<Reading>
        requires { IsRising (joined self.now) }
        ensures { result ≡ at_instant at (joined self.now) }
    {
        if self.is_on_right(at) {
            reading_at(self.right, at)
        } else {
            reading_at(self.left, at)
        }
    }

    /// Whether one stands at an instant, where all stand from it on.
    pub(crate) fn begins_at(&self, at: Second) -> bool
        requires rising { IsRising (joined self.now) }
        requires from { All (λ r. at ≤ℤ r.at) (joined self.now) }
        ensures { result ≡ is_some (at_instant at (joined self.now)) }
    {
        match self.first() {
            Some(reading) => reading.at == at,
            None => false,
        }
    }

    /// The readings from a number of seconds on, which may lie where no instant is: found by a walk from the last one.
    pub(crate) fn tail(&self, number: i64) -> Halves<'a>
        requires { IsRising (joined self.now) }
        ensures { joined result ≡ from_instant number (joined self.now) }
    {
        Halves {
            left: tail(self.left, number),
            right: tail(self.right, number),
        }
    }

    /// The readings before a number of seconds, which may lie where no instant is: found by a walk from the first one.
    pub(crate) fn head(&self, number: i64) -> Halves<'a>
        requires { IsRising (joined self.now) }
        ensures { joined result ≡ before_instant number (joined self.now) }
    {
        Halves {
            left: head(self.left, number),
            right: head(self.right, number),
        }
    }

    /// The last reading that is used.
    pub fn last_used(&self) -> Option<Reading>
        ensures { result ≡ find is_used (reverse (joined self.now)) }
    {
        let Some(reading) = used::last_used(self.right) else {
            return used::last_used(self.left);
        };
        Some(reading)
    }

    /// The first reading that is used.
    pub fn first_used(&self) -> Option<Reading>
        ensures { result ≡ find is_used (joined self.now) }
    {
        let Some(reading) = used::first_used(self.left) else {
            return used::first_used(self.right);
        };
        Some(reading)
    }

    /// The last used reading of those from a number of seconds on.
    pub(crate) fn last_used_from(&self, number: i64) -> Option<Reading>
        requires { IsRising (joined self.now) }
        ensures { result ≡ find is_used (reverse (from_instant number (joined self.now))) }
    {
        let Some(reading) = used::last_used_from(self.right, number) else {
            return used::last_used_from(self.left, number);
        };
        Some(reading)
    }

    /// The first used reading of those before a number of seconds.
    pub(crate) fn first_used_before(&self, number: i64) -> Option<Reading>
        requires { IsRising (joined self.now) }
        ensures { result ≡ find is_used (before_instant number (joined self.now)) }
    {
        let Some(reading) = used::first_used_before(self.left, number) else {
            return used::first_used_before(self.right, number);
        };
        Some(reading)
    }
}

/// The reading of a slice at an instant, if there is one.
fn reading_at(list: &[Reading], at: Second) -> Option<Reading>
    requires { IsRising list.now }
    ensures { result ≡ at_instant at list.now }
{
    rising::place_in(list, at).map(|place| list[place])
}
