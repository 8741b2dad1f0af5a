//! What has happened to a shared office, as it is told: no value of these types is made.

use history::Recorded;
use office_inputs::Limits;
use records::Format;

/// An entry of the list of a shared office.
#[derive(Drop)]
pub enum Entry {
    /// What has happened in the office.
    Happened(Recorded),
    /// No further edit will be asked for.
    Ending,
}

/// What never changes of a shared office.
#[derive(Drop)]
pub struct Fixed {
    /// With how many edits the office was opened.
    pub opened: u64,
    /// The numbers that it keeps to.
    pub limits: Limits,
    /// The format of its journal.
    pub format: Format,
}
