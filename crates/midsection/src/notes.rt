//! Measurement notes: verticals that are tested.

ghost use Rattle.std.specs.Prelude.{◌≡◌, IfOk, IfErr, Ok, Err};
ghost use Rattle.midsection.specs.Midsection as midsection;
ghost use Rattle.midsection.specs.Notes as counts;
ghost use Rattle.midsection.specs.Notes.{AreVerticals, IsNotes};
ghost use Rattle.midsection.specs.Reading.{counted};

use crate::discharges::sum_discharges;
use crate::faults::NotesFault;
use crate::verticals::Vertical;
use fixed_units::{Micro, is_discharge};
use std::marker::Model;

/// The least number of verticals.
pub const LEAST_VERTICALS: usize = 3;

/// The greatest number of verticals.
pub const MOST_VERTICALS: usize = 200;

/// Measurement notes: 3 to 200 verticals in order of their distances, each of a method, and of a total from 0 to 10,000,000 cubic feet
/// per second. Contracts see the verticals.
#[derive(Drop)]
pub struct Notes {
    verticals: Vec<Vertical>,
    /// The sum of their discharges, computed once.
    total: Micro,
}

impl Model for Notes {
    ghost use Rattle.std.specs.Prelude.{List};
    ghost use Rattle.midsection.specs.Notes.{IsKept};
    ghost use Rattle.midsection.specs.declared.verticals.Vertical.{Vertical};

    ghost Value = { List Vertical };

    ghost view = { λ n. n.verticals.items };

    ghost invariant = { λ n. IsKept n.verticals.items n.total };
}

impl Notes {
    /// The verticals, in order.
    pub fn verticals(&self) -> &[Vertical]
        ensures verticals { result.now ≡ self.now }
        ensures notes { IsNotes self.now }
    {
        self.verticals.as_slice()
    }

    /// The sum of their discharges.
    pub(crate) fn sum(&self) -> Micro
        ensures { result ≡ midsection.total self.now }
    {
        self.total
    }

    /// The notes of verticals that are in order, if they are so many and their total is a discharge.
    pub(crate) fn of_verticals(verticals: Vec<Vertical>) -> Result<Notes, NotesFault>
        requires { AreVerticals verticals.items }
        ensures ok { IfOk result (λ notes. counted (Ok verticals.items) ≡ Ok notes) }
        ensures err { IfErr result (λ fault. counted (Ok verticals.items) ≡ Err fault) }
    {
        if is_off_count(verticals.len()) {
            return Err(NotesFault::Count);
        }
        let total = sum_discharges(verticals.as_slice());
        if !is_discharge(total) {
            return Err(NotesFault::Total);
        }
        Ok(Notes {
            verticals,
            total: Micro::of_millionths(total),
        })
    }
}

/// Whether notes may not have so many verticals.
fn is_off_count(count: usize) -> bool
    ensures { result ≡ counts.is_off_count count }
{
    count < LEAST_VERTICALS || MOST_VERTICALS < count
}
