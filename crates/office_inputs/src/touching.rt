//! What an edit touches of a station's days.

ghost use Rattle.std.specs.Prelude.{◌≡◌};
ghost use Rattle.office_inputs.specs.Kept.{in_force};
ghost use Rattle.office_inputs.specs.Places.{IsPlaceOf};
ghost use Rattle.office_inputs.specs.Touched.{touched_of};

use crate::inputs::Inputs;
use crate::places::Place;
use edits::Edit;
use station_inputs::Touched;

impl Inputs {
    /// What an edit touches of the station of its site as it is before: nothing where it is not kept. It takes no memory.
    pub fn touched(&self, edit: &Edit) -> Touched
        ensures { result ≡ touched_of (in_force self.now) edit.now }
    {
        self.touched_at(self.place(edit.site), edit)
    }

    /// The same at the place of the edit's site. Nothing is looked up but where an entry or a period stands.
    pub fn touched_at(&self, place: Place, edit: &Edit) -> Touched
        requires { IsPlaceOf (in_force self.now) edit.now.site place }
        ensures { result ≡ touched_of (in_force self.now) edit.now }
    {
        match self.station_at(place) {
            Some(station) => station.touched(&edit.what),
            None => Touched::Nothing,
        }
    }
}
