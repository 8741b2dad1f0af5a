//! The least cover of a day, and the cover that a mean needs.

ghost use Rattle.std.specs.Prelude.{◌≡◌, ◌↔◌, ◌≤◌, true, IfSome, Option, ℕ};
ghost use Rattle.std.specs.Bool.{Decides};
ghost use Rattle.editions.specs.Covers.{IsLeastCover, need, same_least};

/// The greatest least cover in minutes: a day of 24 hours.
pub const MOST_LEAST_COVER: u32 = 1_440;

/// Whether so many minutes are a least cover: 1 to 1,440.
pub fn is_least_cover(minutes: u32) -> bool
    ensures { result ≡ true ↔ IsLeastCover minutes }
{
    (1..=MOST_LEAST_COVER).contains(&minutes)
}

/// How many seconds a mean needs of a day that has so many: all of them, or by a least cover in minutes that cover, where it is less
/// than the day.
pub fn need(length: u32, least: Option<u32>) -> u32
    requires { IfSome least IsLeastCover }
    ensures { result ≡ need length least }
{
    match least {
        Some(minutes) => length.min(60 * minutes),
        None => length,
    }
}

/// The whole day is never too little, and a day that has seconds needs some of them.
pub fn the_whole_day_is_enough()
    ensures most { (length : ℕ) (least : Option ℕ) → need length least ≤ length }
    ensures some { (length : ℕ) (least : Option ℕ) → 1 ≤ length → IfSome least IsLeastCover → 1 ≤ need length least }
{}

/// One least cover, or none, is another exactly where the test of the definitions says so.
pub fn equality_is_told()
    ensures { (least other : Option ℕ) → Decides (same_least least other) (least ≡ other) }
{}
