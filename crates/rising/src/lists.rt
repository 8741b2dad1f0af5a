//! The kept list.

ghost use Rattle.std.specs.Prelude.{◌≡◌, ◌+◌, ◌<◌, ◌≤◌, ◌↔◌, [], None, length, option_map, IsOk, OnErr, vec_len, vec_capacity};
ghost use Rattle.rising.specs.Lists.{IsRising, before, from, after, between, at, without, put};

use crate::keys::Keyed;
use crate::places::{count_before, stands_in};
use std::alloc::{AllocError, Global};
use std::marker::Model;
use thiserror::Error;

/// Nothing stands at the key.
#[derive(Clone, Copy, Debug, PartialEq, Eq, Error)]
#[error("nothing stands there")]
pub struct NoEntry;

/// Elements that strictly rise by their keys. Contracts see the list, and for how many more elements there is room.
#[derive(Drop)]
pub struct RisingList<T: Keyed> {
    list: Vec<T>,
}

impl<T: Keyed> Model for RisingList<T> {
    ghost use Rattle.std.specs.Prelude.{◌-◌, vec_len, vec_capacity};
    ghost use Rattle.rising.specs.Lists.{Kept, IsRising};

    ghost Value = { Kept T };

    ghost view = { λ r. record { list = r.list.items; spare = vec_capacity r.list - vec_len r.list } };

    ghost invariant = { λ r. IsRising T.place r.list.items };
}

/// A rising list about a key.
#[derive(Clone, Copy, Debug)]
pub struct Parts<'a, T> {
    /// The elements before the key.
    pub before: &'a [T],
    /// The element at the key.
    pub here: Option<&'a T>,
    /// The elements after the key.
    pub after: &'a [T],
}

impl<T: Keyed> RisingList<T> {
    /// No elements and no room, which takes no memory.
    pub fn new(alloc: Global) -> RisingList<T>
        ensures list { result.list ≡ [] }
        ensures spare { result.spare ≡ 0 }
    {
        RisingList {
            list: Vec::new(alloc),
        }
    }

    /// The elements, in order.
    pub fn as_slice(&self) -> &[T]
        ensures list { result.now ≡ self.now.list }
        ensures rising { IsRising T.place self.now.list }
    {
        self.list.as_slice()
    }

    /// For how many more elements there is room.
    pub fn spare(&self) -> usize
        ensures { result ≡ self.now.spare }
    {
        self.list.capacity() - self.list.len()
    }

    /// Makes room for so many more elements, exactly where it says Ok. Where there is room for them already it does,
    /// and after an error all is as before.
    pub fn reserve(&mut self, count: usize) -> Result<(), AllocError>
        ensures list { self.new.list ≡ self.old.list }
        ensures room { IsOk result ↔ (count ≤ self.new.spare) }
        ensures kept { self.old.spare ≤ self.new.spare }
        ensures err { OnErr result (self.new ≡ self.old) }
    {
        self.list.reserve(count)
    }

    /// The element at a key, if there is one.
    pub fn get(&self, key: T::Key) -> Option<&T>
        ensures { option_map (λ r. r.now) result ≡ at T.place (T.number key) self.now.list }
    {
        let list = self.list.as_slice();
        let place = count_before(list, key);
        if stands_in(list, place, key) {
            return Some(&list[place]);
        }
        None
    }

    /// The elements from a key on and before another: none where that one is no later.
    pub fn between(&self, first: T::Key, end: T::Key) -> &[T]
        ensures { result.now ≡ between T.place (T.number first) (T.number end) self.now.list }
    {
        let list = self.list.as_slice();
        let (_early, rest) = list.split_at(count_before(list, first));
        let (inner, _late) = rest.split_at(count_before(rest, end));
        inner
    }

    /// The elements before a key, and those from it on.
    pub fn split_at_key(&self, key: T::Key) -> (&[T], &[T])
        ensures before { result.0.now ≡ before T.place (T.number key) self.now.list }
        ensures from { result.1.now ≡ from T.place (T.number key) self.now.list }
    {
        let list = self.list.as_slice();
        list.split_at(count_before(list, key))
    }

    /// The elements before a key, the one at it, if there is one, and those after it.
    pub fn parts(&self, key: T::Key) -> Parts<'_, T>
        ensures before { result.before.now ≡ before T.place (T.number key) self.now.list }
        ensures here { option_map (λ r. r.now) result.here ≡ at T.place (T.number key) self.now.list }
        ensures after { result.after.now ≡ after T.place (T.number key) self.now.list }
        ensures rising { IsRising T.place self.now.list }
    {
        let list = self.list.as_slice();
        let place = count_before(list, key);
        if stands_in(list, place, key) {
            return Parts {
                before: &list[..place],
                here: Some(&list[place]),
                after: &list[place + 1..],
            };
        }
        let (before, after) = list.split_at(place);
        Parts {
            before,
            here: None,
            after,
        }
    }
}

impl<T: Keyed + Drop> RisingList<T> {
    /// Puts an element in its place, instead of the one at its key. There is room for it, so no memory is taken.
    pub fn put(&mut self, element: T)
        requires room { 0 < self.old.spare }
        ensures list { self.new.list ≡ put T.place element self.old.list }
        ensures spare { self.old.spare ≤ self.new.spare + 1 }
        ensures room { length self.new.list + self.new.spare ≡ length self.old.list + self.old.spare }
    {
        put_in(&mut self.list, element);
    }

    /// Takes out the element at a key, if there is one. Its room stays.
    pub fn take_out(&mut self, key: T::Key) -> Option<T>
        ensures taken { result ≡ at T.place (T.number key) self.old.list }
        ensures list { self.new.list ≡ without T.place (T.number key) self.old.list }
        ensures unchanged { result ≡ None → self.new.list ≡ self.old.list }
        ensures spare { self.old.spare ≤ self.new.spare }
        ensures room { length self.new.list + self.new.spare ≡ length self.old.list + self.old.spare }
    {
        take_from(&mut self.list, key)
    }
}

/// Puts an element among those of a rising list that has room for it, in place of the one at its key.
pub fn put_in<T: Keyed + Drop>(list: &mut Vec<T>, element: T)
    requires rising { IsRising T.place list.old.items }
    requires room { vec_len list.old < vec_capacity list.old }
    ensures items { list.new.items ≡ put T.place element list.old.items }
    ensures length { vec_len list.new ≤ vec_len list.old + 1 }
    ensures rising { IsRising T.place list.new.items }
    ensures capacity { vec_capacity list.new ≡ vec_capacity list.old }
{
    let key = element.key();
    let place = count_before(list, key);
    if stands_in(list, place, key) {
        list[place] = element;
        return;
    }
    let _done = list.insert(place, element);
}

/// Takes the element at a key out of a rising list.
fn take_from<T: Keyed>(list: &mut Vec<T>, key: T::Key) -> Option<T>
    requires { IsRising T.place list.old.items }
    ensures taken { result ≡ at T.place (T.number key) list.old.items }
    ensures items { list.new.items ≡ without T.place (T.number key) list.old.items }
    ensures unchanged { result ≡ None → list.new.items ≡ list.old.items }
    ensures length { vec_len list.new ≤ vec_len list.old }
    ensures rising { IsRising T.place list.new.items }
    ensures capacity { vec_capacity list.new ≡ vec_capacity list.old }
{
    let place = count_before(list, key);
    if stands_in(list, place, key) {
        return Some(list.remove(place));
    }
    None
}
