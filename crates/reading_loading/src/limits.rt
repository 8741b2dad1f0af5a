//! How long a text of readings may be, and how many of them one edit puts.

ghost use Rattle.std.specs.Prelude.{◌≡◌};
ghost use Rattle.edits.specs.Lawful.{most_readings};

/// How many bytes a text of readings may have.
pub const MOST_BYTES: usize = 67_108_864;

/// How many readings one edit puts, at most.
pub const MOST_READINGS: usize = 100_000;

/// An edit puts as many as it may: a law, which does nothing.
pub fn an_edit_puts_as_many_as_it_may()
    ensures { MOST_READINGS ≡ most_readings }
{}
