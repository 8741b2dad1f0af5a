//! Columns of numbers, of values of no size, and of what no memory holds.

use gapcol::Column;
use std::marker::{Send, Sync};

/// Nothing but itself, in no bytes.
#[derive(Clone, Copy)]
struct Mark;

/// Whether a value is put in, since there is such a place and room.
fn insert<T: Copy>(column: &mut Column<T>, at: usize, value: T) -> bool {
    if at > column.len() || column.spare() == 0 {
        return false;
    }
    column.insert(at, value);
    true
}

/// Whether values are put behind the last, since there is room.
fn append<T: Copy>(column: &mut Column<T>, values: &[T]) -> bool {
    if values.len() > column.spare() {
        return false;
    }
    column.append(values);
    true
}

/// The value that is taken out, if there is one.
fn remove<T: Copy>(column: &mut Column<T>, at: usize) -> Option<T> {
    if at >= column.len() {
        return None;
    }
    Some(column.remove(at))
}

/// The value at a place, if there is one.
fn get<T: Copy>(column: &Column<T>, at: usize) -> Option<T> {
    if at >= column.len() {
        return None;
    }
    Some(column.get(at))
}

/// Whether a value is written over, since there is one.
fn set(column: &mut Column<u32>, at: usize, value: u32) -> bool {
    if at >= column.len() {
        return false;
    }
    column.set(at, value);
    true
}

/// Whether the two parts joined are that list.
fn lends(column: &Column<u32>, from: usize, to: usize, want: &[u32]) -> bool {
    if from > to || to > column.len() {
        return false;
    }
    let (left, right) = column.parts(from, to);
    is_joined(left, right, want)
}

fn is_joined(left: &[u32], right: &[u32], want: &[u32]) -> bool {
    match want.split_at_checked(left.len()) {
        Some((begin, end)) => left == begin && right == end,
        None => false,
    }
}

/// Whether a column is that list.
fn is(column: &Column<u32>, want: &[u32]) -> bool {
    lends(column, 0, column.len(), want)
}

/// Makes the list of 1, 2 and 4, with no room left that the rows know of.
fn fill(column: &mut Column<u32>) -> bool {
    column.reserve(3).is_ok()
        && insert(column, 0, 1)
        && insert(column, 1, 4)
        && insert(column, 1, 2)
}

/// A column goes to another thread, and is read there, where its values may.
fn crosses<C: Send + Sync>(column: C) -> C {
    column
}

/// Parts of the list of 1, 2, 3 and 4.
static PARTS: [(usize, usize, &[u32]); 7] = [
    (0, 4, &[1, 2, 3, 4]),
    (1, 3, &[2, 3]),
    (0, 2, &[1, 2]),
    (3, 4, &[4]),
    (0, 0, &[]),
    (2, 2, &[]),
    (4, 4, &[]),
];

fn lends_parts(column: &Column<u32>) -> bool {
    for (from, to, want) in &PARTS {
        if !lends(column, *from, *to, want) {
            return false;
        }
    }
    true
}

/// Puts a value between two others, which takes the room of one.
fn put_between(column: &mut Column<u32>) -> bool {
    let spare = column.spare();
    insert(column, 2, 3) && column.spare() + 1 == spare
}

#[test]
fn a_value_goes_between(rt: HostRuntime) {
    let mut column = crosses(Column::<u32>::new(rt.alloc()));
    let went = fill(&mut column)
        && column.reserve(1).is_ok()
        && put_between(&mut column)
        && lends_parts(&column);
    assert!(rt; went);
}

/// Puts two values behind the last, which takes the room of two.
fn put_behind(column: &mut Column<u32>) -> bool {
    let spare = column.spare();
    append(column, &[5, 6]) && column.spare() + 2 == spare
}

fn goes_behind(column: &mut Column<u32>) -> bool {
    fill(column)
        && column.reserve(4).is_ok()
        && insert(column, 2, 3)
        && put_behind(column)
        && append(column, &[])
        && is(column, &[1, 2, 3, 4, 5, 6])
}

fn goes_between(column: &mut Column<u32>) -> bool {
    insert(column, 3, 9)
        && is(column, &[1, 2, 3, 9, 4, 5, 6])
        && remove(column, 5) == Some(5)
        && is(column, &[1, 2, 3, 9, 4, 6])
}

#[test]
fn values_go_behind_the_last(rt: HostRuntime) {
    let mut column = Column::<u32>::new(rt.alloc());
    let went = goes_behind(&mut column) && goes_between(&mut column);
    assert!(rt; went);
}

fn changes_both_sides(column: &mut Column<u32>) -> bool {
    remove(column, 1) == Some(2)
        && set(column, 0, 7)
        && set(column, 1, 8)
        && get(column, 0) == Some(7)
        && get(column, 1) == Some(8)
}

fn empties_both_sides(column: &mut Column<u32>) -> bool {
    remove(column, 0) == Some(7) && remove(column, 0) == Some(8) && column.len() == 0
}

#[test]
fn both_sides_of_the_gap(rt: HostRuntime) {
    let mut column = Column::<u32>::new(rt.alloc());
    let went = fill(&mut column)
        && changes_both_sides(&mut column)
        && empties_both_sides(&mut column);
    assert!(rt; went);
}

fn one_of_two_marks(column: &mut Column<Mark>) -> bool {
    column.reserve(usize::MAX / 2).is_ok()
        && insert(column, 0, Mark)
        && insert(column, 1, Mark)
        && remove(column, 0).is_some()
        && get(column, 0).is_some()
        && column.len() == 1
}

fn three_marks(column: &mut Column<Mark>) -> bool {
    append(column, &[Mark, Mark])
        && get(column, 2).is_some()
        && column.len() == 3
        && column.reserve(usize::MAX).is_err()
}

#[test]
fn values_of_no_size(rt: HostRuntime) {
    let mut column = Column::<Mark>::new(rt.alloc());
    let went = one_of_two_marks(&mut column) && three_marks(&mut column);
    assert!(rt; went);
}

/// Whether there is no room for so many values more, in any of some numbers: the last is refused by the allocator, since its bytes are more
/// than a process has addresses, and the others without asking it.
fn is_refused<T: Copy>(column: &mut Column<T>) -> bool {
    for count in [usize::MAX, usize::MAX / 2, usize::MAX / 8, 1 << 61, 1 << 45] {
        if column.reserve(count).is_ok() {
            return false;
        }
    }
    true
}

#[test]
fn no_block_is_as_large_for_none(rt: HostRuntime) {
    let mut column = Column::<u64>::new(rt.alloc());
    let refused = is_refused(&mut column);
    assert!(rt; refused && column.len() == 0 && column.spare() == 0);
}

#[test]
fn no_block_is_as_large(rt: HostRuntime) {
    let mut column = Column::<u32>::new(rt.alloc());
    let refused = fill(&mut column) && is_refused(&mut column) && is(&column, &[1, 2, 4]);
    assert!(rt; refused);
}

/// Behind growths that were refused the room that was left is used, and the list goes on.
fn goes_on(column: &mut Column<u32>) -> bool {
    fill(column)
        && column.reserve(1).is_ok()
        && is_refused(column)
        && put_between(column)
        && lends_parts(column)
        && remove(column, 0) == Some(1)
        && is(column, &[2, 3, 4])
}

#[test]
fn a_column_goes_on_behind_a_refusal(rt: HostRuntime) {
    let mut column = Column::<u32>::new(rt.alloc());
    assert!(rt; goes_on(&mut column));
}
