//! The window of a day: lent without a copy, and as a list.

ghost use Rattle.std.specs.Prelude.{◌≡◌, pos, ◌*◌, ◌++◌, filter, length, option_to_list, OnOk, IfOk};
ghost use Rattle.readings.specs.Halves.{joined};
ghost use Rattle.readings.specs.Readings.{is_used};
ghost use Rattle.readings.specs.Window.{window, of_day, window_before, window_after};

use crate::halves::Halves;
use crate::lists::Readings;
use crate::reach::{neighbour_after, neighbour_before};
use crate::used::{count_used, is_usable};
use fixed_units::{NoMemory, Reading, Second};
use std::alloc::Global;

/// What a day's window is made of, lent without a copy.
#[derive(Clone, Copy, Debug, Drop)]
pub struct Window<'a> {
    /// The last used reading before the day, where it is near enough and the day has a used reading of its own.
    pub before: Option<Reading>,
    /// The readings of the day, erroneous ones among them, as far as they lie before the gap of the column.
    pub left: &'a [Reading],
    /// The others of the day.
    pub right: &'a [Reading],
    /// The first used reading after the day, where it is near enough and the day has a used reading of its own.
    pub after: Option<Reading>,
}

impl<'a> Window<'a> {
    /// The readings of the day.
    pub fn day(&self) -> Halves<'a>
        ensures { joined result ≡ self.now.left.now ++ self.now.right.now }
    {
        Halves {
            left: self.left,
            right: self.right,
        }
    }
}

impl Readings {
    /// What the window of the day from `a` to `b` is made of; `gap` is in minutes.
    pub fn window(&self, a: Second, b: Second, gap: u32) -> Window<'_>
        ensures before { result.before ≡ window_before a b (pos (60 * gap)) self.now.list }
        ensures inner { result.left.now ++ result.right.now ≡ of_day a b self.now.list }
        ensures after { result.after ≡ window_after a b (pos (60 * gap)) self.now.list }
        ensures joined { option_to_list result.before ++ (filter is_used (result.left.now ++ result.right.now) ++ option_to_list result.after) ≡ window a b (pos (60 * gap)) self.now.list }
    {
        let parts = self.halves().parts(a, b);
        let Halves { left, right } = parts.day;
        let Some(_) = parts.day.first_used() else {
            return Window {
                before: None,
                left,
                right,
                after: None,
            };
        };
        Window {
            before: neighbour_before(&parts.before, a, gap),
            left,
            right,
            after: neighbour_after(&parts.behind, b, gap),
        }
    }

    /// The window of the day from `a` to `b` as a list; `gap` is in minutes.
    pub fn to_list(
        &self,
        alloc: Global,
        a: Second,
        b: Second,
        gap: u32,
    ) -> Result<Vec<Reading>, NoMemory>
        ensures { IfOk result (λ v. v.items ≡ window a b (pos (60 * gap)) self.now.list) }
    {
        let window = self.window(a, b, gap);
        let left = count_used(window.left);
        let right = count_used(window.right);
        let ends = usize::from(window.before.is_some()) + usize::from(window.after.is_some());
        let room = left.saturating_add(right).saturating_add(ends);
        let mut list = Vec::with_capacity(alloc, room)?;
        push_some(&mut list, window.before)?;
        push_used(&mut list, window.left, left)?;
        push_used(&mut list, window.right, right)?;
        push_some(&mut list, window.after)?;
        Ok(list)
    }
}

/// Adds the readings of a slice that are used, which are so many. Most days use all of theirs, which are copied as they stand.
fn push_used(list: &mut Vec<Reading>, readings: &[Reading], used: usize) -> Result<(), NoMemory>
    requires { used ≡ length (filter is_used readings.now) }
    ensures { OnOk result (list.new.items ≡ list.old.items ++ filter is_used readings.now) }
{
    if used == readings.len() {
        list.extend_from_slice(readings)?;
        return Ok(());
    }
    list.extend(readings.iter().copied().filter(|r| is_usable(r)))?;
    Ok(())
}

/// Adds a reading, where there is one.
fn push_some(list: &mut Vec<Reading>, reading: Option<Reading>) -> Result<(), NoMemory>
    ensures { OnOk result (list.new.items ≡ list.old.items ++ option_to_list reading) }
{
    if let Some(reading) = reading {
        list.push(reading)?;
    }
    Ok(())
}
