//! Columns of cells, a day after the other.

ghost use Rattle.std.specs.Prelude.{ℕ, All, None, Some, ◌≡◌, ◌⊎◌, true, ◌+◌, ◌<◌, ◌≤◌, ◌++◌, replicate, length, pos, ◌+ℤ◌, ◌≤ℤ◌, ◌<ℤ◌, ◌&&◌, not, false, slice_index, slice_index_or, set, if◌then◌else◌, IfOk, IfSome, IfNone};
ghost use Rattle.fixed_units.specs.Quantities.{first_day, last_day};
ghost use Rattle.fixed_units.specs.Calendar.{days_of_calendar};
ghost use Rattle.day_cells.specs.KeptDays.{is_edit, NonePendingWithin, NoneUnclaimedBefore};

use crate::waiting::Waiting;
use fixed_units::{Day, FIRST_DAY, LAST_DAY, NoMemory, Site};
use std::alloc::Global;

/// The place of a day in columns from `start` on, if it has one.
pub(crate) fn place_of(start: Day, awaits: &[u64], day: Day) -> Option<usize>
    requires { (start +ℤ pos (length awaits.now)) ≤ℤ (last_day +ℤ pos 1) }
    ensures found { IfSome result (λ k. (day ≡ start +ℤ pos k) × (k < length awaits.now)) }
    ensures absent { IfNone result ((day <ℤ start) ⊎ ((start +ℤ pos (length awaits.now)) ≤ℤ day)) }
{
    if day < start {
        return None;
    }
    let place = distance(start, day);
    if place < awaits.len() {
        Some(place)
    } else {
        None
    }
}

/// A column with so many elements more in front and behind, each of them `blank`.
pub(crate) fn widened<T: Copy>(
    alloc: Global,
    column: &[T],
    blank: T,
    front: usize,
    back: usize,
) -> Result<Vec<T>, NoMemory>
    requires { front + length column.now + back < 4_294_967_296 }
    ensures { IfOk result (λ wide. wide.items ≡ (replicate front blank ++ column.now) ++ replicate back blank) }
{
    let inner = front + column.len();
    let mut wide = Vec::with_capacity(alloc, inner + back)?;
    wide.resize(front, blank)?;
    wide.extend_from_slice(column)?;
    wide.resize(inner + back, blank)?;
    Ok(wide)
}

/// How many places of columns from `start` on are of days up to this one.
pub(crate) fn count_to(start: Day, awaits: &[u64], day: Day) -> usize
    requires { (start +ℤ pos (length awaits.now)) ≤ℤ (last_day +ℤ pos 1) }
    ensures within { result ≤ length awaits.now }
    ensures earlier { (k : ℕ) → k < result → (start +ℤ pos k) ≤ℤ day }
    ensures later { (k : ℕ) → result ≤ k → k < length awaits.now → day <ℤ (start +ℤ pos k) }
{
    if day < start {
        return 0;
    }
    let behind = distance(start, day) + 1;
    behind.min(awaits.len())
}

/// The first of two days.
fn earlier_of(a: Day, b: Day) -> Day
    ensures calendar { first_day ≤ℤ result }
    ensures first { result ≤ℤ a }
    ensures second { result ≤ℤ b }
{
    let _first = a.get().min(b.get());
    if a < b { a } else { b }
}

/// The last of two days.
fn later_of(a: Day, b: Day) -> Day
    ensures first { a ≤ℤ result }
    ensures second { b ≤ℤ result }
{
    if a < b { b } else { a }
}

/// The first of a day and these days.
pub(crate) fn earliest(day: Day, days: &[Day]) -> Day
    ensures low { result ≤ℤ day }
    ensures all { All (λ d. result ≤ℤ d) days.now }
{
    let mut first = day;
    for other in days {
        first = earlier_of(first, *other);
    }
    first
}

/// The last of a day and these days.
pub(crate) fn latest(day: Day, days: &[Day]) -> Day
    ensures high { day ≤ℤ result }
    ensures all { All (λ d. d ≤ℤ result) days.now }
{
    let mut last = day;
    for other in days {
        last = later_of(last, *other);
    }
    last
}

/// How many days one day is behind another.
pub(crate) fn distance(from: Day, to: Day) -> usize
    requires { from ≤ℤ to }
    ensures { to ≡ from +ℤ pos result }
{
    (to.get() - from.get()) as usize
}

/// How many days of the calendar come after a day.
fn days_left(day: Day) -> usize
    ensures { (day +ℤ pos result) ≡ last_day }
{
    (LAST_DAY - day.get()) as usize
}

/// The day so many days earlier, within the calendar.
fn earlier(day: Day, count: usize) -> Day
    requires { count ≤ days_of_calendar }
    ensures first { first_day ≤ℤ result }
    ensures earlier { result ≤ℤ day }
{
    match Day::new((day.get() - count as i32).max(FIRST_DAY)) {
        Some(found) => earlier_of(found, day),
        None => day,
    }
}

/// The day that columns with room for these days too begin with. Where they need room in front they get as much again
/// as they have, within the calendar.
pub(crate) fn wide_start(start: Day, awaits: &[u64], days: &[Day]) -> Day
    requires { length awaits.now ≤ days_of_calendar }
    ensures first { first_day ≤ℤ result }
    ensures low { result ≤ℤ start }
    ensures all { All (λ d. result ≤ℤ d) days.now }
{
    let first = earliest(start, days);
    if first == start {
        return first;
    }
    earlier(first, awaits.len())
}

/// How many cells columns with room for these days too have more behind. Where they need room there they get as much
/// again as they have, within the calendar.
pub(crate) fn room_behind(start: Day, awaits: &[u64], days: &[Day]) -> usize
    requires { (start +ℤ pos (length awaits.now)) ≤ℤ (last_day +ℤ pos 1) }
    ensures all { All (λ d. d <ℤ (start +ℤ pos (length awaits.now + result))) days.now }
    ensures high { (start +ℤ pos (length awaits.now + result)) ≤ℤ (last_day +ℤ pos 1) }
{
    let last = latest(start, days);
    let needed = distance(start, last) + 1;
    if needed <= awaits.len() {
        return 0;
    }
    needed - awaits.len() + awaits.len().min(days_left(last))
}

/// The first place from `from` on whose day awaits an edit, or else the end.
pub(crate) fn first_pending(awaits: &[u64], from: usize) -> usize
    requires { from ≤ length awaits.now }
    ensures low { from ≤ result }
    ensures within { result ≤ length awaits.now }
    ensures between { NonePendingWithin awaits.now from result }
    ensures here { result < length awaits.now → is_edit (slice_index awaits.now result) ≡ true }
{
    let mut place = from;
    while place < awaits.len() && awaits[place] == 0 {
        place += 1;
    }
    place
}

/// The first place from `from` on whose day awaits an edit and whose claim is not out, or else the end. None before
/// `from` is such.
pub(crate) fn first_unclaimed(awaits: &[u64], claims: &[bool], from: usize) -> usize
    requires within { from ≤ length awaits.now }
    requires columns { length claims.now ≡ length awaits.now }
    requires before { NoneUnclaimedBefore awaits.now claims.now from }
    ensures within { result ≤ length awaits.now }
    ensures before { NoneUnclaimedBefore awaits.now claims.now result }
    ensures pending { result < length awaits.now → is_edit (slice_index awaits.now result) ≡ true }
    ensures unclaimed { result < length awaits.now → slice_index_or claims.now result false ≡ false }
{
    let mut place = from;
    while place < awaits.len() && (awaits[place] == 0 || claims[place]) {
        place += 1;
    }
    place
}

/// Makes the day of a place await an edit, so that its claim is no longer out, and gives how many days more are pending.
pub(crate) fn mark_at(awaits: &mut [u64], claims: &mut [bool], place: usize, edit: u64) -> usize
    requires within { place < length awaits.old }
    requires columns { length claims.old ≡ length awaits.old }
    ensures awaits { awaits.new ≡ set awaits.old place edit }
    ensures claims { claims.new ≡ set claims.old place false }
    ensures more { result ≡ (if is_edit (slice_index awaits.old place) then 0 else 1) }
{
    let more = usize::from(awaits[place] == 0);
    awaits[place] = edit;
    claims[place] = false;
    more
}

/// The day of a place, with what it awaits, if there is such a place.
pub(crate) fn waiting_at(
    site: Site,
    start: Day,
    awaits: &[u64],
    claims: &[bool],
    place: usize,
) -> Option<Waiting>
    requires high { (start +ℤ pos (length awaits.now)) ≤ℤ (last_day +ℤ pos 1) }
    requires columns { length claims.now ≡ length awaits.now }
    ensures found { place < length awaits.now → result ≡ Some (record { site = site; day = start +ℤ pos place; awaits = slice_index awaits.now place; out = slice_index_or claims.now place false }) }
    ensures none { length awaits.now ≤ place → result ≡ None }
{
    if place >= awaits.len() {
        return None;
    }
    let day = Day::new(start.get() + place as i32)?;
    Some(Waiting {
        site,
        day,
        awaits: awaits[place],
        out: claims[place],
    })
}
