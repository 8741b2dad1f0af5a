//! Where a key belongs in a slice that rises: a binary search.

ghost use Rattle.std.specs.Prelude.{◌≡◌, true, false, None, ◌+◌, ◌<◌, ◌≤◌, length, take, drop, slice_get, slice_set, int_le, IfSome, IfNone};
ghost use Rattle.rising.specs.Lists.{IsRising, before, from, up_to, after, at, put};

use crate::keys::Keyed;

/// How many elements stand before a key.
pub fn count_before<T: Keyed>(list: &[T], key: T::Key) -> usize
    requires { IsRising T.place list.now }
    ensures within { result ≤ length list.now }
    ensures front { take result list.now ≡ before T.place (T.number key) list.now }
    ensures back { drop result list.now ≡ from T.place (T.number key) list.now }
{
    list.partition_point(|element| element.is_before(key))
}

/// How many elements stand before a key or at it.
pub fn count_to<T: Keyed>(list: &[T], key: T::Key) -> usize
    requires { IsRising T.place list.now }
    ensures within { result ≤ length list.now }
    ensures front { take result list.now ≡ up_to T.place (T.number key) list.now }
    ensures back { drop result list.now ≡ after T.place (T.number key) list.now }
{
    list.partition_point(|element| is_up_to(element, key))
}

/// Whether an element stands before a key or at it.
fn is_up_to<T: Keyed>(element: &T, key: T::Key) -> bool
    ensures { result ≡ int_le (T.place element.now) (T.number key) }
{
    element.is_before(key) || element.is_at(key)
}

/// Whether the element in the place where a key belongs stands at it.
pub(crate) fn stands_in<T: Keyed>(list: &[T], place: usize, key: T::Key) -> bool
    requires rising { IsRising T.place list.now }
    requires front { take place list.now ≡ before T.place (T.number key) list.now }
    requires back { drop place list.now ≡ from T.place (T.number key) list.now }
    ensures found { result ≡ true → at T.place (T.number key) list.now ≡ slice_get list.now place }
    ensures none { result ≡ false → at T.place (T.number key) list.now ≡ None }
    ensures within { result ≡ true → place < length list.now }
    ensures here { result ≡ true → drop (place + 1) list.now ≡ after T.place (T.number key) list.now }
    ensures elsewhere { result ≡ false → drop place list.now ≡ after T.place (T.number key) list.now }
{
    place < list.len() && list[place].is_at(key)
}

/// The place of the element at a key, if there is one.
pub fn place_in<T: Keyed>(list: &[T], key: T::Key) -> Option<usize>
    requires { IsRising T.place list.now }
    ensures found { IfSome result (λ place. at T.place (T.number key) list.now ≡ slice_get list.now place) }
    ensures within { IfSome result (λ place. place < length list.now) }
    ensures written { IfSome result (λ place. (element : T) → T.place element ≡ T.number key → slice_set list.now place element ≡ put T.place element list.now) }
    ensures none { IfNone result (at T.place (T.number key) list.now ≡ None) }
{
    let place = count_before(list, key);
    if stands_in(list, place, key) {
        Some(place)
    } else {
        None
    }
}
