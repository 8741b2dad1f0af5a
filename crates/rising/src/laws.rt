//! What holds of every rising list.

ghost use Rattle.std.specs.Prelude.{◌≡◌, ◌≢◌, Bool, ℤ, List, filter, None, Some};
ghost use Rattle.rising.specs.Lists.{IsRising, at, without, put};

use crate::keys::Keyed;

/// A part of a rising list rises, and so does the list after a put and after a take, where exactly the one place is changed.
pub fn rising_lists<T: Keyed>()
    ensures part { (p : T → Bool) (xs : List T) → IsRising T.place xs → IsRising T.place (filter p xs) }
    ensures put_rises { (x : T) (xs : List T) → IsRising T.place xs → IsRising T.place (put T.place x xs) }
    ensures put_there { (x : T) (xs : List T) → at T.place (T.place x) (put T.place x xs) ≡ Some x }
    ensures put_elsewhere { (x : T) (n : ℤ) (xs : List T) → T.place x ≢ n → at T.place n (put T.place x xs) ≡ at T.place n xs }
    ensures put_same { (x : T) (xs : List T) → IsRising T.place xs → at T.place (T.place x) xs ≡ Some x → put T.place x xs ≡ xs }
    ensures without_rises { (n : ℤ) (xs : List T) → IsRising T.place xs → IsRising T.place (without T.place n xs) }
    ensures taken { (n : ℤ) (xs : List T) → at T.place n (without T.place n xs) ≡ None }
    ensures taken_elsewhere { (k n : ℤ) (xs : List T) → k ≢ n → at T.place n (without T.place k xs) ≡ at T.place n xs }
{}
