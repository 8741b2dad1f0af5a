//! Laws of the texts of days and instants.

ghost use Rattle.civil_days.specs.Spelling.{day_of_text, instant_of_text, stamp_of_text, IsUnique};

/// Two texts that are read as one day are equal, and so are two that are read as one instant.
pub fn texts_of_days_are_unique()
    ensures days { IsUnique day_of_text }
    ensures instants { IsUnique instant_of_text }
    ensures stamps { IsUnique stamp_of_text }
{}
