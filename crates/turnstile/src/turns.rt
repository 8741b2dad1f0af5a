//! The calls of a turnstile.
ghost use Rattle.std.specs.Prelude.{◌≡◌, ◌<◌, ◌≤◌, ◌^◌, ◌+◌, ◌-◌, ◌++◌, ℕ, [], ◌∷◌, length, IfOk, IfErr, Some, None, true, false};
ghost use mathlib.Core.List.{IsPrefix};
ghost use Rattle.turnstile.specs.Places.{places, times, longer, IsEachOnce};
ghost use Rattle.turnstile.specs.Parties.{holding, wrote, at_rest};
ghost use Rattle.turnstile.specs.Passes.{knows, seen, share, tally, pass_of, value_of, entered, first_value, IsPassOf, IsHeldOf, Rests, Holds, IsSized};

use crate::held::Held;
use crate::kept::Kept;
use crate::lock::{SharedTable, Turnstile};
use crate::parties::Pass;
use crate::steps::{Close, Cut, Give, Glance, Glue, Learn, Take, Write};
use atomic_table::Table;
use std::alloc::{AllocFailed, Global};
use std::snapshot::Snapshot;
use std::sync::Wait;
use thiserror::Error;

/// There was no memory for a turnstile.
#[derive(Clone, Copy, Debug, PartialEq, Eq, Error)]
#[error("there is no memory for a lock")]
pub struct NoMemory;

impl<T: Kept> Turnstile<T> {
    /// A lock round a value, and a pass of the whole share that has seen the value's history. The only call that takes memory;
    /// after `NoMemory` the value comes back.
    pub fn new(alloc: Global, value: T) -> Result<(Turnstile<T>, Pass<T>), (T, NoMemory)>
        ensures pass { IfOk result (λ r. IsPassOf T.history T.fixed r.0 r.1) }
        ensures made { IfOk result (λ r. first_value r.0 ≡ value) }
        ensures seen { IfOk result (λ r. seen r.1 ≡ T.history value) }
        ensures share { IfOk result (λ r. share r.1 ≡ 2 ^ 32) }
        ensures tally { IfOk result (λ r. tally r.1 ≡ []) }
        ensures err { IfErr result (λ e. e.0 ≡ value) }
    {
        let about = Snapshot::of(&value);
        let events = value.events();
        let mut slots = Vec::new(alloc);
        if let Err(AllocFailed { value: back }) = slots.push(Some(value)) {
            slots.destroy_empty();
            return Err((back.unwrap(), NoMemory));
        }
        match Table::new(alloc, &[0, events], slots, &about) {
            Ok((table, pass)) => Ok((Turnstile { table }, pass)),
            Err(refused) => {
                let mut slots = refused.slots;
                let back = slots.pop().unwrap();
                slots.destroy_empty();
                Err((back.unwrap(), NoMemory))
            }
        }
    }

    /// Waits for the turn, and takes the value. Its history begins with what the pass had seen.
    pub fn enter<R: Wait>(&self, rt: &R, mut pass: Pass<T>) -> Held<T>
        requires { IsPassOf T.history T.fixed self.now pass }
        ensures held { IsHeldOf T.history T.fixed self.now result }
        ensures entered { entered result ≡ T.history (value_of result) }
        ensures begins { IsPrefix (seen pass) (T.history (value_of result)) }
        ensures fixed { T.fixed (value_of result) ≡ T.fixed (first_value self.now) }
        ensures share { share (pass_of result) ≡ share pass }
        ensures tally { tally (pass_of result) ≡ tally pass }
    {
        for _ in rt.forever() {
            if try_take(&self.table.shared, &mut pass) {
                return taken(&self.table.shared, pass);
            }
            self.table.shared.park(rt, 0, 1);
        }
        unreachable!()
    }

    /// Gives the value back. The pass has then seen its history, and its tally has the places of the entries that were added.
    pub fn leave(&self, held: Held<T>) -> Pass<T>
        requires held { IsHeldOf T.history T.fixed self.now held }
        requires begins { IsPrefix (entered held) (T.history (value_of held)) }
        requires fixed { T.fixed (value_of held) ≡ T.fixed (first_value self.now) }
        ensures pass { IsPassOf T.history T.fixed self.now result }
        ensures seen { seen result ≡ T.history (value_of held) }
        ensures share { share result ≡ share (pass_of held) }
        ensures tally { tally result ≡ tally (pass_of held) ++ places (length (entered held)) (length (T.history (value_of held)) - length (entered held)) }
    {
        let Held { mut pass, value } = held;
        let events = value.events();
        put(&self.table.shared, &mut pass, value, events);
        self.table.shared.wake_one(0);
        pass
    }

    /// The length of the history now, which the pass has then seen. With the whole share its tally has each place since the
    /// turnstile was made once.
    pub fn glance(&self, pass: &mut Pass<T>) -> u64
        requires { IsPassOf T.history T.fixed self.now pass.old }
        ensures pass { IsPassOf T.history T.fixed self.now pass.new }
        ensures begins { IsPrefix (seen pass.old) (seen pass.new) }
        ensures length { result ≡ length (seen pass.new) }
        ensures share { share pass.new ≡ share pass.old }
        ensures tally { tally pass.new ≡ tally pass.old }
        ensures whole { share pass.old ≡ 2 ^ 32 → IsEachOnce (length (T.history (first_value self.now))) result (tally pass.old) }
    {
        self.table.shared.load::<Glance>(pass, 1)
    }

    /// Two passes of one, which have seen the same. The second has one share and an empty tally.
    pub fn split(&self, mut pass: Pass<T>) -> (Pass<T>, Pass<T>)
        requires pass { IsPassOf T.history T.fixed self.now pass }
        requires share { 2 ≤ share pass }
        ensures passes { IsPassOf T.history T.fixed self.now result.0 × IsPassOf T.history T.fixed self.now result.1 }
        ensures seen { (seen result.0 ≡ seen pass) × (seen result.1 ≡ seen pass) }
        ensures share { (share result.0 ≡ share pass - 1) × (share result.1 ≡ 1) }
        ensures tally { (tally result.0 ≡ tally pass) × (tally result.1 ≡ []) }
    {
        let other = self.table.shared.split_seat::<Cut>(&mut pass);
        (pass, other)
    }

    /// One pass of two. It has seen the longer of the two histories, which begins with both.
    pub fn join(&self, mut one: Pass<T>, other: Pass<T>) -> Pass<T>
        requires one { IsPassOf T.history T.fixed self.now one }
        requires other { IsPassOf T.history T.fixed self.now other }
        ensures pass { IsPassOf T.history T.fixed self.now result }
        ensures seen { seen result ≡ longer (seen one) (seen other) }
        ensures begins { IsPrefix (seen one) (seen result) × IsPrefix (seen other) (seen result) }
        ensures share { share result ≡ share one + share other }
        ensures tally { tally result ≡ tally one ++ tally other }
    {
        self.table.shared.join_seat::<Glue>(&mut one, other);
        self.table.shared.load::<Learn>(&mut one, 1);
        one
    }

    /// Takes the value for good, and waits for nobody: with the whole share no other pass or holding is left. The pass had seen
    /// the whole history, and its tally has each place since the turnstile was made once.
    pub fn close(&self, mut pass: Pass<T>) -> T
        requires pass { IsPassOf T.history T.fixed self.now pass }
        requires share { share pass ≡ 2 ^ 32 }
        ensures history { T.history result ≡ seen pass }
        ensures fixed { T.fixed result ≡ T.fixed (first_value self.now) }
        ensures tally { IsEachOnce (length (T.history (first_value self.now))) (length (T.history result)) (tally pass) }
    {
        self.table
            .shared
            .compare_exchange::<Close>(&mut pass, 0, 0, 1);
        self.table.shared.exchange(&mut pass, 0, None).unwrap()
    }
}

// Takes the value where the turn is free.
fn try_take<T: Kept>(table: &SharedTable<T>, pass: &mut Pass<T>) -> bool
    requires table { IsSized table.now.table_id }
    requires pass { Rests table.now.table_id pass.old }
    ensures table { pass.new.table_id ≡ pass.old.table_id }
    ensures taken { result ≡ true → (v : T) × (pass.new.me.1 ≡ (0, Some v) ∷ []) × (knows pass.new ≡ holding (knows pass.old) (T.history v)) × IsPrefix (knows pass.old).seen (T.history v) × ((knows pass.old).fixed ≡ Some (T.fixed v)) }
    ensures missed { result ≡ false → pass.new.me ≡ pass.old.me }
{
    table.compare_exchange::<Take>(pass, 0, 0, 1) == 0
}

// The value that was taken.
fn taken<T: Kept>(table: &SharedTable<T>, mut pass: Pass<T>) -> Held<T>
    requires { (pass.table_id ≡ table.now.table_id) × ((v : T) × (pass.me.1 ≡ (0, Some v) ∷ [])) }
    ensures pass { (result.pass.table_id ≡ pass.table_id) × (knows result.pass ≡ knows pass) × (result.pass.me.1 ≡ (0, None) ∷ []) }
    ensures value { pass.me.1 ≡ (0, Some result.value) ∷ [] }
{
    let value = table.exchange(&mut pass, 0, None).unwrap();
    Held { pass, value }
}

// Puts the value back, writes the length and gives up the turn.
fn put<T: Kept>(table: &SharedTable<T>, pass: &mut Pass<T>, value: T, events: u64)
    requires table { IsSized table.now.table_id }
    requires holding { Holds table.now.table_id pass.old }
    requires begins { IsPrefix (knows pass.old).seen (T.history value) }
    requires fixed { (knows pass.old).fixed ≡ Some (T.fixed value) }
    requires length { events ≡ length (T.history value) }
    ensures pass { (pass.new.table_id ≡ pass.old.table_id) × (pass.new.me ≡ (at_rest (wrote (knows pass.old) (T.history value)), [])) }
{
    let nothing = table.exchange(pass, 0, Some(value));
    let None = nothing else { unreachable!() };
    table.store::<Write>(pass, 1, events);
    table.store::<Give>(pass, 0, 0);
}
