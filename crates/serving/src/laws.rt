//! What holds of connections that were served.

ghost use Rattle.std.specs.Prelude.{ℕ, List, Option};
ghost use mathlib.Core.List.{IsPrefix};
ghost use Rattle.desk.specs.Serving.{Served};
ghost use Rattle.devices.specs.Doors.{Ends};
ghost use Rattle.serving.specs.Taking.{AreServed};
ghost use Rattle.shared_office.specs.declared.entries.Entry.{Entry};
ghost use Rattle.shared_office.specs.declared.entries.Fixed.{Fixed};

/// What is served for a list of the lock is served for each list that begins with it, with the same places: a single connection, and all
/// that were given. So what a session came to is told of the whole history, however long it has become.
pub fn what_is_served_stays_served()
    ensures one { (fixed : Fixed) (came went : Ends) (start : ℕ) (list later : List Entry) (places : List ℕ) → IsPrefix list later
        → Served fixed came went start list places → Served fixed came went start later places }
    ensures all { (fixed : Fixed) (start : ℕ) (list later : List Entry) (back : ℕ → Option Ends) (given : List Ends) (connections : List (List ℕ))
        → IsPrefix list later → AreServed fixed start list back 1 given connections → AreServed fixed start later back 1 given connections }
{}
