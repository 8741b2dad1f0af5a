//! A gate where a worker passes before it computes a day.

use fixed_units::{Day, Site};

/// Where a worker passes with a day that it claimed, before it computes it. A gate has no meaning: it gives nothing and
/// changes nothing that is told. A test's gate may hold the worker there for a while.
pub trait Gate {
    /// Passes with this day of this site.
    fn pass(&self, site: Site, day: Day);

    /// The same gate once more, for another worker.
    fn again(&self) -> Self;
}

/// The program's gate, which holds nobody.
#[derive(Clone, Copy, Debug, Drop)]
pub struct OpenGate;

impl Gate for OpenGate {
    fn pass(&self, _site: Site, _day: Day) {}

    fn again(&self) -> OpenGate {
        OpenGate
    }
}
