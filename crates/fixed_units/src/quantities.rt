//! The numbers that every layer above speaks of: amounts in millionths, instants, days and sites.

ghost use Rattle.std.specs.Prelude.{◌≡◌, ◌^◌, ◌<◌, ◌≤◌, ◌↔◌, true, ℤ, pos, neg_ℤ, ◌≤ℤ◌, int_lt, IsSome, IfSome, if◌then◌else◌};
ghost use Rattle.std.specs.declared.cmp.Ordering.TheVariants.{Less};
ghost use Rattle.fixed_units.specs.Quantities.{IsMicro, IsSecond, IsDay, IsSite, most_stated, same_site, site_order, site_place};

use std::marker::Model;

/// The greatest magnitude of an amount, in millionths.
const MOST_MILLIONTHS: i64 = 100_000_000_000_000_000;

/// The greatest magnitude of an instant, in seconds.
const MOST_SECONDS: i64 = 10_000_000_000;

/// The first day of the calendar, 1900-01-01.
pub const FIRST_DAY: i32 = -25_567;

/// The last day of the calendar, 2099-12-31.
pub const LAST_DAY: i32 = 47_481;

/// A whole number of millionths of a foot or of a cubic foot per second, from -10^17 to 10^17.
#[derive(Clone, Copy, Debug, PartialEq, Eq, PartialOrd, Ord)]
pub struct Micro {
    millionths: i64,
}

impl Model for Micro {
    ghost use Rattle.std.specs.Prelude.{ℤ};
    ghost use Rattle.fixed_units.specs.Quantities.{IsMicro};

    ghost Value = { ℤ };

    ghost view = { λ m. m.millionths };

    ghost invariant = { λ m. IsMicro m.millionths };

    ghost inverse = { λ n. record { millionths = n } };
}

impl Micro {
    /// The quantity of that many millionths, or `None` exactly where it is out of range.
    pub fn new(value: i64) -> Option<Micro>
        ensures range { IsSome result ↔ IsMicro value }
        ensures value { IfSome result (λ m. m ≡ value) }
    {
        if (-MOST_MILLIONTHS..=MOST_MILLIONTHS).contains(&value) {
            Some(Micro { millionths: value })
        } else {
            None
        }
    }

    /// The quantity of that many millionths, which are in range: nothing is tested.
    pub fn of_millionths(value: i64) -> Micro
        requires { IsMicro value }
        ensures { result ≡ value }
    {
        Micro { millionths: value }
    }

    /// The quantity of a sign and a magnitude of at most 10^13 millionths.
    pub(crate) fn of_magnitude(negative: bool, magnitude: u64) -> Micro
        requires { magnitude ≤ most_stated }
        ensures { result ≡ (if negative then neg_ℤ (pos magnitude) else pos magnitude) }
    {
        let value = magnitude as i64;
        Micro {
            millionths: if negative { -value } else { value },
        }
    }

    /// The number of millionths.
    pub fn get(self) -> i64
        ensures value { result ≡ self }
        ensures range { IsMicro self }
    {
        self.millionths
    }
}

/// An instant: seconds from 1970-01-01T00:00:00Z, without leap seconds, from -10^10 to 10^10.
#[derive(Clone, Copy, Debug, PartialEq, Eq, PartialOrd, Ord)]
pub struct Second {
    seconds: i64,
}

impl Model for Second {
    ghost use Rattle.std.specs.Prelude.{ℤ};
    ghost use Rattle.fixed_units.specs.Quantities.{IsSecond};

    ghost Value = { ℤ };

    ghost view = { λ s. s.seconds };

    ghost invariant = { λ s. IsSecond s.seconds };

    ghost inverse = { λ n. record { seconds = n } };
}

impl Second {
    /// The instant of that many seconds, or `None` exactly where it is out of range.
    pub fn new(value: i64) -> Option<Second>
        ensures range { IsSome result ↔ IsSecond value }
        ensures value { IfSome result (λ s. s ≡ value) }
    {
        if (-MOST_SECONDS..=MOST_SECONDS).contains(&value) {
            Some(Second { seconds: value })
        } else {
            None
        }
    }

    /// The instant of that many seconds, which are in range: nothing is tested.
    pub fn of_seconds(value: i64) -> Second
        requires { IsSecond value }
        ensures { result ≡ value }
    {
        Second { seconds: value }
    }

    /// The number of seconds.
    pub fn get(self) -> i64
        ensures value { result ≡ self }
        ensures range { IsSecond self }
    {
        self.seconds
    }
}

/// A day of the calendar, counted from 1970-01-01: from -25,567 (1900-01-01) to 47,481 (2099-12-31).
#[derive(Clone, Copy, Debug, PartialEq, Eq, PartialOrd, Ord)]
pub struct Day {
    number: i32,
}

impl Model for Day {
    ghost use Rattle.std.specs.Prelude.{ℤ};
    ghost use Rattle.fixed_units.specs.Quantities.{IsDay};

    ghost Value = { ℤ };

    ghost view = { λ d. d.number };

    ghost invariant = { λ d. IsDay d.number };

    ghost inverse = { λ n. record { number = n } };
}

impl Day {
    /// The day of that number, or `None` exactly where it is out of range.
    pub fn new(value: i32) -> Option<Day>
        ensures range { IsSome result ↔ IsDay value }
        ensures value { IfSome result (λ d. d ≡ value) }
    {
        if (FIRST_DAY..=LAST_DAY).contains(&value) {
            Some(Day { number: value })
        } else {
            None
        }
    }

    /// The number of the day.
    pub fn get(self) -> i32
        ensures value { result ≡ self }
        ensures range { IsDay self }
    {
        self.number
    }
}

/// The number of a gauging station: 8 to 15 decimal digits, of which zeros in front count. Numbers of
/// fewer digits come first.
#[derive(Clone, Copy, Debug, PartialEq, Eq, PartialOrd, Ord)]
pub struct Site {
    digits: u8,
    value: u64,
}

impl Model for Site {
    ghost use Rattle.fixed_units.specs.Quantities.{SiteNumber, IsSite};

    ghost Value = { SiteNumber };

    ghost view = { λ s. record { digits = s.digits; value = s.value } };

    ghost invariant = { λ s. IsSite (record { digits = s.digits; value = s.value }) };

    ghost inverse = { λ n. record { digits = n.digits; value = n.value } };
}

impl Site {
    /// The number of so many digits with that value, or `None` exactly where there is none.
    pub fn new(digits: u8, value: u64) -> Option<Site>
        ensures range { IsSome result ↔ IsSite (record { digits = digits; value = value }) }
        ensures value { IfSome result (λ s. s ≡ record { digits = digits; value = value }) }
    {
        if (8..=15).contains(&digits) && value < 10_u64.pow(u32::from(digits)) {
            Some(Site { digits, value })
        } else {
            None
        }
    }

    /// How many digits the number has, 8 to 15.
    pub fn digits(self) -> u8
        ensures value { result ≡ self.digits }
        ensures range { IsSite self }
    {
        self.digits
    }

    /// The value of the digits.
    pub fn value(self) -> u64
        ensures value { result ≡ self.value }
        ensures range { IsSite self }
    {
        self.value
    }

    /// Whether the site comes before another: it has fewer digits, or as many and the lesser value.
    pub fn is_before(self, other: Site) -> bool
        ensures place { result ≡ int_lt (site_place self) (site_place other) }
        ensures order { result ≡ true ↔ site_order self other ≡ Less }
    {
        self.digits < other.digits || (self.digits == other.digits && self.value < other.value)
    }

    /// Whether it is the other site.
    pub fn is_at(self, other: Site) -> bool
        ensures place { result ≡ same_site self other }
        ensures same { result ≡ true ↔ self ≡ other }
    {
        self.digits == other.digits && self.value == other.value
    }
}

/// Sites are in the order of their digits, and of as many digits in that of their values.
pub fn sites_are_in_order()
    ensures { (a b : Site) → ⟦<Site as Ord>⟧.cmp a b ≡ site_order a b }
{}
