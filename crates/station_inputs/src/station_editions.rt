//! The editions of a station: the rule of a daily mean from a day on, as it is asked for and changed.

ghost use Rattle.std.specs.Prelude.{◌≡◌, ◌<◌, option_map, OnOk};
ghost use Rattle.edits.specs.Lawful.{IsSetEdition};
ghost use Rattle.rising.specs.Lists as lists;
ghost use Rattle.station_inputs.specs.KeptStation.{IsStation};
ghost use Rattle.station_inputs.specs.Stations.{edition_after, edition_day, edition_on, governs, least_cover, with_editions};

use crate::stations::Station;
use fixed_units::{Day, NoMemory};
use rising::Keyed;

/// The edition of the rule of a daily mean that is in force from a day on, until the day of the next one.
#[derive(Clone, Copy, Debug, PartialEq, Eq)]
pub struct Edition {
    /// The first day.
    pub day: Day,
    /// The least cover in minutes from which on a mean is published, 1 to 1,440, or `None` for the whole day.
    pub least: Option<u32>,
}

impl Keyed for Edition {
    type Key = Day;

    ghost place = { λ e. e.day };

    ghost number = { λ d. d };

    fn key(&self) -> Day {
        self.day
    }

    fn is_before(&self, key: Day) -> bool {
        self.day < key
    }

    fn is_at(&self, key: Day) -> bool {
        self.day == key
    }
}

impl Station {
    /// The least cover in force on a day in minutes, or `None` exactly where no edition is in force or the one that is asks for the
    /// whole day. It takes no memory.
    pub fn least_cover(&self, day: Day) -> Option<u32>
        ensures { result ≡ least_cover self.now.station day }
    {
        self.edition_on(day)?.least
    }

    /// The edition in force on a day, or `None` exactly where none is.
    fn edition_on(&self, day: Day) -> Option<&Edition>
        ensures { option_map (λ e. e.now) result ≡ edition_on day self.now.station.editions }
    {
        let parts = self.editions.parts(day);
        parts.here.or(parts.before.last())
    }

    /// The first edition after a day, or `None` exactly where there is none.
    pub fn edition_after(&self, day: Day) -> Option<&Edition>
        ensures { option_map (λ e. e.now) result ≡ edition_after day self.now.station.editions }
    {
        self.editions.parts(day).after.first()
    }

    /// The least cover in force on a day where an edition is put.
    pub(crate) fn least_cover_with(&self, edition: &Edition, day: Day) -> Option<u32>
        ensures { result ≡ least_cover (with_editions (lists.put edition_day edition.now) self.now.station) day }
    {
        let _site = self.site();
        if self.governs(edition.day, day) {
            edition.least
        } else {
            self.least_cover(day)
        }
    }

    /// Whether an edition of a day would be in force on another one.
    fn governs(&self, own: Day, day: Day) -> bool
        ensures { result ≡ governs own day (edition_on day self.now.station.editions) }
    {
        match self.edition_on(day) {
            Some(kept) => own <= day && kept.day <= own,
            None => own <= day,
        }
    }

    /// Makes room for one edition more. The station is as before, also after `NoMemory`.
    pub(crate) fn reserve_edition(&mut self) -> Result<(), NoMemory>
        ensures station { self.new.station ≡ self.old.station }
        ensures room { OnOk result (0 < self.new.edition_room) }
        ensures kept { IsStation self.new.station }
    {
        self.editions.reserve(1)?;
        Ok(())
    }

    /// Puts an edition in place of the one of its day. There is room for it, so no memory is taken.
    pub(crate) fn put_edition(&mut self, edition: Edition)
        requires room { 0 < self.old.edition_room }
        requires lawful { IsSetEdition edition.day edition.least }
        ensures station { self.new.station ≡ with_editions (lists.put edition_day edition) self.old.station }
        ensures kept { IsStation self.new.station }
    {
        self.editions.put(edition);
    }
}
