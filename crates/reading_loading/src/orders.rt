//! What is asked of a text of readings.

ghost use Rattle.std.specs.Prelude.{◌≡◌, ◌<◌};
ghost use Rattle.reading_loading.specs.Puts.{reference_of};

use crate::prefixes::Prefix;
use edits::{By, Ref};
use fixed_units::Site;
use std::marker::Model;

/// What is asked of a text of readings: of which site and column they are, who puts them, and what the references begin with under which
/// they are put. Contracts see these four.
#[derive(Drop)]
pub struct ReadingOrder<'a> {
    site: Site,
    column: &'a [u8],
    by: By,
    prefix: Prefix,
}

impl<'a> Model for ReadingOrder<'a> {
    ghost use Rattle.reading_loading.specs.Puts.{Order};

    ghost Value = { Order };

    ghost view = { λ o. record { site = o.site; column = o.column.now; by = o.by; prefix = o.prefix } };
}

impl<'a> ReadingOrder<'a> {
    /// The readings of that column and of that site, at which they are put; who puts them, and what their references begin with.
    pub fn new(site: Site, column: &'a [u8], by: By, prefix: Prefix) -> ReadingOrder<'a>
        ensures { result ≡ record { site = site; column = column.now; by = by; prefix = prefix } }
    {
        ReadingOrder {
            site,
            column,
            by,
            prefix,
        }
    }

    /// The site.
    pub(crate) fn site(&self) -> Site
        ensures { result ≡ self.now.site }
    {
        self.site
    }

    /// The name of the column.
    pub(crate) fn column(&self) -> &[u8]
        ensures { result.now ≡ self.now.column }
    {
        self.column
    }

    /// Who puts the readings.
    pub(crate) fn by(&self) -> By
        ensures { result ≡ self.now.by }
    {
        self.by.copy()
    }

    /// The reference of a number.
    pub(crate) fn reference(&self, number: u64) -> Ref
        requires { number < 1_000_000_000 }
        ensures { result ≡ reference_of self.now.prefix number }
    {
        self.prefix.reference(number)
    }
}
