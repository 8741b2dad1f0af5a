//! What holds of every list of readings.

ghost use Rattle.std.specs.Prelude.{◌≡◌, ◌+◌, ◌≤ℤ◌, ◌+ℤ◌, ◌-ℤ◌, ℤ, pos, List, filter, length, All};
ghost use Rattle.std.specs.Option.{option_or};
ghost use Rattle.fixed_units.specs.declared.readings.Flag.{Flag};
ghost use Rattle.fixed_units.specs.declared.readings.Reading.{Reading};
ghost use Rattle.readings.specs.Reach.{IsFar};
ghost use Rattle.readings.specs.Readings.{IsRising, at_instant, is_used, put_all, in_span, without_span, with_flag};
ghost use Rattle.readings.specs.Window.{IsWindow, window};

/// A list with readings put is the union of both: at each instant stands the one that was put, else the one that stood there.
pub fn puts_unite()
    ensures { (list rs : List Reading) (n : ℤ) → IsRising list → IsRising rs → at_instant n (put_all list rs) ≡ option_or (at_instant n list) (at_instant n rs) }
{}

/// What is dropped and what is left are all.
pub fn drops_leave_the_rest()
    ensures { (from to : ℤ) (rs : List Reading) → length (without_span from to rs) + length (in_span from to rs) ≡ length rs }
{}

/// The used readings from the gap before a day to the gap behind it tell its window: lists that have the same have the same window.
pub fn near_readings_tell_a_window()
    ensures { (a b gap : ℤ) (rs ss : List Reading) → IsRising rs → IsRising ss → a ≤ℤ b → pos 0 ≤ℤ gap → in_span (a -ℤ gap) (b +ℤ gap) (filter is_used rs) ≡ in_span (a -ℤ gap) (b +ℤ gap) (filter is_used ss) → window a b gap rs ≡ window a b gap ss }
{}

/// A change leaves the window of a day where each reading that it puts, drops or flags stands farther from the day than the gap.
pub fn far_changes_leave_a_window()
    ensures put_all { (a b gap : ℤ) (list rs : List Reading) → IsRising rs → a ≤ℤ b → pos 0 ≤ℤ gap → All (IsFar a b gap) list → window a b gap (put_all list rs) ≡ window a b gap rs }
    ensures without_span { (a b gap from to : ℤ) (rs : List Reading) → IsRising rs → a ≤ℤ b → pos 0 ≤ℤ gap → All (IsFar a b gap) (in_span from to rs) → window a b gap (without_span from to rs) ≡ window a b gap rs }
    ensures with_flag { (a b gap from to : ℤ) (flag : Flag) (rs : List Reading) → IsRising rs → a ≤ℤ b → pos 0 ≤ℤ gap → All (IsFar a b gap) (in_span from to rs) → window a b gap (with_flag from to flag rs) ≡ window a b gap rs }
{}

/// A list with readings put, dropped or flagged rises, and so does a window.
pub fn windows_rise()
    ensures put_all { (list rs : List Reading) → IsRising rs → IsRising (put_all list rs) }
    ensures without_span { (from to : ℤ) (rs : List Reading) → IsRising rs → IsRising (without_span from to rs) }
    ensures with_flag { (from to : ℤ) (flag : Flag) (rs : List Reading) → IsRising rs → IsRising (with_flag from to flag rs) }
    ensures window { (a b gap : ℤ) (rs : List Reading) → IsRising rs → IsRising (window a b gap rs) }
{}

/// A list that meets the cases of a day's window is the window, and the window meets them: so there is one such list, and no other.
pub fn windows_are_told_by_cases()
    ensures one { (a b gap : ℤ) (rs list : List Reading) → IsWindow a b gap rs list → list ≡ window a b gap rs }
    ensures some { (a b gap : ℤ) (rs : List Reading) → IsWindow a b gap rs (window a b gap rs) }
{}
