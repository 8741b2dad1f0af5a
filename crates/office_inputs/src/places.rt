//! Where the station of a site stands: it is looked up once for an edit, which is then refused or not, prepared and applied at
//! its place.

ghost use Rattle.std.specs.Prelude.{◌≡◌, option_map};
ghost use Rattle.rising.specs.Lists.{IsRising};
ghost use Rattle.office_inputs.specs.Kept.{kept_at, place_of_kept, states_of};
ghost use Rattle.office_inputs.specs.Places.{IsPlace, IsPlaceOf};

use fixed_units::Site;
use rising::place_in;
use station_inputs::Station;
use std::marker::Model;

/// Where the station of a site stands among those that are kept, until an edit is accepted. Contracts see the site and the index.
#[derive(Clone, Copy, Debug)]
pub struct Place {
    site: Site,
    index: Option<usize>,
}

impl Model for Place {
    ghost use Rattle.office_inputs.specs.Places.{Placed};

    ghost Value = { Placed };

    ghost view = { λ p. record { site = p.site; index = p.index } };

    ghost inverse = { λ p. record { site = p.site; index = p.index } };
}

impl Place {
    /// The site.
    pub fn site(self) -> Site
        ensures { result ≡ self.site }
    {
        self.site
    }

    /// The index of its station among those that are kept, or `None` where it is not kept.
    pub fn index(self) -> Option<usize>
        ensures { result ≡ self.index }
    {
        self.index
    }
}

/// Where the station of a site stands, by a binary search.
pub(crate) fn find_place(stations: &[Station], site: Site) -> Place
    requires { IsRising place_of_kept stations.now }
    ensures { IsPlaceOf (states_of stations.now) site result }
{
    Place {
        site,
        index: place_in(stations, site),
    }
}

/// The station at a place.
pub(crate) fn station_there(stations: &[Station], place: Place) -> Option<&Station>
    requires rising { IsRising place_of_kept stations.now }
    requires place { IsPlace (states_of stations.now) place }
    ensures { option_map (λ s. s.now) result ≡ kept_at stations.now place.site }
{
    match place.index() {
        Some(index) => Some(&stations[index]),
        None => None,
    }
}
