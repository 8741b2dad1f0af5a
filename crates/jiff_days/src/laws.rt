//! What jiff's conversion says of the days of a zone. A law speaks of every zone and every answer that jiff's calls may give by
//! their contracts: `TimeZone::posix` and `TimeZone::fixed` of the zone, `TimeZone::to_timestamp` of the instant. A zone of jiff is
//! seen as the one of `jiff_tz` that it holds.

ghost use Rattle.std.specs.Prelude.{◌≡◌, ◌≤◌, ◌<ℤ◌, ℕ, ℤ, List, Result, Some, None, IsSome, length};
ghost use Rattle.civil_days.specs.Starts.{IsZone, day_start_of, offset_seconds};
ghost use Rattle.jiff.specs.Placed.{IsPosixZone, fixed_zone};
ghost use Rattle.jiff_core.specs.Timestamp.{IsOffsetSeconds};
ghost use Rattle.jiff_core.specs.declared.Offset.{Offset};
ghost use Rattle.jiff_core.specs.declared.Timestamp.{Timestamp};
ghost use Rattle.jiff_core.specs.declared.civil.datetime.DateTime.{DateTime};
ghost use Rattle.jiff_core.specs.declared.error.Error.{Error};
ghost use Rattle.jiff_tz.specs.Ambiguous.{compatible_offset, instant_of};
ghost use Rattle.jiff_tz.specs.PosixReader.{read_whole};
ghost use Rattle.jiff_tz.specs.Zone.{ambiguous_at};
ghost use Rattle.jiff_tz.specs.declared.ambiguous.AmbiguousOffset.TheVariants.{Gap, Fold};
ghost use Rattle.jiff_tz.specs.declared.posix.TimeZone.{TimeZone as Rule};
ghost use Rattle.jiff_tz.specs.declared.timezone.TimeZone.{TimeZone};
ghost use Rattle.jiff_tz.specs.declared.timezone.TimeZone.TheVariants.{Posix};
ghost use Rattle.jiff_days.specs.Conversion.{IsCalendarDay, IsMidnight, IsConverted, IsSecondOf};

/// The days of a POSIX rule begin where jiff's compatible conversion puts their midnights. The text is one of at most 60 bytes, the
/// zone is what jiff's `TimeZone::posix` reads it as, and the day is one of the calendar or the day after its last, where that one
/// ends: jiff's `TimeZone::to_timestamp` of the day's midnight never fails, and gives the very instant.
pub fn rule_days_begin_by_jiff()
    ensures { (text : List ℕ) (zone : TimeZone) (day : ℤ) (midnight : DateTime) (answer : Result Timestamp Error) → length text ≤ 60 → IsPosixZone text zone → IsCalendarDay day → IsMidnight day midnight → IsConverted zone midnight answer → IsSecondOf (day_start_of text day) answer }
{}

/// So do the days of a text that is an offset, in the zone that jiff's `TimeZone::fixed` makes of an offset of as many seconds.
pub fn offset_days_begin_by_jiff()
    ensures { (text : List ℕ) (offset : Offset) (day : ℤ) (midnight : DateTime) (answer : Result Timestamp Error) → offset_seconds text ≡ Some offset.seconds → IsCalendarDay day → IsMidnight day midnight → IsConverted (fixed_zone offset) midnight answer → IsSecondOf (day_start_of text day) answer }
{}

/// The zone of a station is one or the other: its text is an offset that jiff can have, or jiff reads it as a POSIX rule and it has
/// at most 60 bytes. No text is both.
pub fn zones_are_known_to_jiff()
    ensures offset { (text : List ℕ) (seconds : ℤ) → offset_seconds text ≡ Some seconds → IsOffsetSeconds seconds }
    ensures rule { (text : List ℕ) → IsZone text → offset_seconds text ≡ None → (length text ≤ 60) × IsSome (read_whole text) }
    ensures apart { (text : List ℕ) → IsSome (read_whole text) → offset_seconds text ≡ None }
{}

/// Where jiff says that the clocks of a POSIX rule show a datetime twice, its compatible conversion takes the offset before the change, which
/// gives the earlier of the two instants. Where it says that they skip a datetime, it takes the offset before the gap too, and there that one
/// gives the later of the two.
pub fn the_offset_before_a_change_is_taken()
    ensures twice { (rule : Rule) (datetime : DateTime) (before after : Offset) → ambiguous_at (Posix rule) datetime ≡ Fold before after → (compatible_offset (ambiguous_at (Posix rule) datetime) ≡ before) × (instant_of datetime before <ℤ instant_of datetime after) }
    ensures skipped { (rule : Rule) (datetime : DateTime) (before after : Offset) → ambiguous_at (Posix rule) datetime ≡ Gap before after → (compatible_offset (ambiguous_at (Posix rule) datetime) ≡ before) × (instant_of datetime after <ℤ instant_of datetime before) }
{}
