//! Points thinned by columns, and the path that is drawn of them.

ghost use Rattle.std.specs.Prelude.{◌≡◌, ◌<◌, ◌≤◌, ◌++◌, [], ◌∷◌, codes, decimal, length, take, drop, OnOk, OnErr};
ghost use Rattle.std.specs.List.{take_while};
ghost use Rattle.drawings.specs.Columns.{columns, goes_on, highest, letter, lowest, path_text, start_text, stroke_text, strokes_of, final, turn, turns_text};

use fixed_units::{NoMemory, Text};

/// A point of a curve.
#[derive(Clone, Copy)]
pub struct Point {
    /// How far it is from the left side of the picture, in whole units.
    pub x: u32,
    /// How far it is from the upper side.
    pub y: u32,
    /// Whether a line leads to it from the point before.
    pub joined: bool,
}

/// What is kept of the points of a column, which stand one above another.
#[derive(Clone, Copy)]
pub struct Stroke {
    /// How far they are from the left side of the picture.
    pub x: u32,
    /// Whether a line leads to the first one from the column before.
    pub joined: bool,
    /// The height of the first one, from the upper side.
    pub first: u32,
    /// The least of their heights.
    pub low: u32,
    /// The greatest of them.
    pub high: u32,
    /// The height of the last one.
    pub last: u32,
}

/// Adds the path of points, thinned by columns, of which a part may be added where memory runs out.
pub fn write_path(points: &[Point], out: &mut Text) -> Result<(), NoMemory>
    ensures ok { OnOk result (out.new ≡ out.old ++ path_text points.now) }
    ensures err { OnErr result (take (length out.old) out.new ≡ out.old) }
{
    let mut rest = points;
    while !rest.is_empty() {
        let (column, behind) = rest.split_at(column_length(rest));
        write_stroke(&stroke_of(column), out)?;
        rest = behind;
    }
    Ok(())
}

/// How many of the points the first column has.
fn column_length(points: &[Point]) -> usize
    requires { 0 < length points.now }
    ensures column { columns points.now ≡ take result points.now ∷ columns (drop result points.now) }
    ensures some { 0 < result }
    ensures within { result ≤ length points.now }
{
    1 + count_going_on(points[0].x, &points[1..])
}

/// How many of the points from the first on go on a column at x.
fn count_going_on(x: u32, points: &[Point]) -> usize
    ensures { result ≡ length (take_while (goes_on x) points.now) }
{
    points
        .iter()
        .take_while(|point| point.joined && point.x == x)
        .count()
}

/// What is kept of the points of a column.
fn stroke_of(column: &[Point]) -> Stroke
    requires { 0 < length column.now }
    ensures { strokes_of column.now ≡ result ∷ [] }
{
    let first = column[0];
    Stroke {
        x: first.x,
        joined: first.joined,
        first: first.y,
        low: lowest(first.y, &column[1..]),
        high: highest(first.y, &column[1..]),
        last: final_height(first.y, &column[1..]),
    }
}

/// The least of the heights of points, behind one height.
fn lowest(y: u32, points: &[Point]) -> u32
    ensures { result ≡ lowest y points.now }
{
    points
        .iter()
        .map(|point| point.y)
        .fold(y, |low, height| low.min(height))
}

/// The greatest of them.
fn highest(y: u32, points: &[Point]) -> u32
    ensures { result ≡ highest y points.now }
{
    points
        .iter()
        .map(|point| point.y)
        .fold(y, |high, height| high.max(height))
}

/// The last of them.
fn final_height(y: u32, points: &[Point]) -> u32
    ensures { result ≡ final y points.now }
{
    points
        .iter()
        .map(|point| point.y)
        .fold(y, |_, height| height)
}

/// Adds the text of a stroke, of which a part may be added where memory runs out.
fn write_stroke(stroke: &Stroke, out: &mut Text) -> Result<(), NoMemory>
    ensures ok { OnOk result (out.new ≡ out.old ++ stroke_text stroke.now) }
    ensures err { OnErr result (take (length out.old) out.new ≡ out.old) }
{
    write_start(stroke, out)?;
    write_turns(stroke, out)
}

/// Adds how a stroke starts, of which a part may be added where memory runs out.
fn write_start(stroke: &Stroke, out: &mut Text) -> Result<(), NoMemory>
    ensures ok { OnOk result (out.new ≡ out.old ++ start_text stroke.now) }
    ensures err { OnErr result (take (length out.old) out.new ≡ out.old) }
{
    out.push_slice(letter(stroke.joined))?;
    out.push_number(u64::from(stroke.x))?;
    out.push(b' ')?;
    out.push_number(u64::from(stroke.first))
}

/// The letter of a line, or of none.
fn letter(joined: bool) -> &'static [u8]
    ensures { result.now ≡ letter joined }
{
    if joined { b"L" } else { b"M" }
}

/// Adds the turns of a stroke, of which a part may be added where memory runs out.
fn write_turns(stroke: &Stroke, out: &mut Text) -> Result<(), NoMemory>
    ensures ok { OnOk result (out.new ≡ out.old ++ turns_text stroke.now) }
    ensures err { OnErr result (take (length out.old) out.new ≡ out.old) }
{
    write_turn(stroke.first, stroke.low, out)?;
    write_turn(stroke.low, stroke.high, out)?;
    write_turn(stroke.high, stroke.last, out)
}

/// Adds a turn from one height to another, if they differ, of which a part may be added where memory runs out.
fn write_turn(from: u32, to: u32, out: &mut Text) -> Result<(), NoMemory>
    ensures ok { OnOk result (out.new ≡ out.old ++ turn from to) }
    ensures err { OnErr result (take (length out.old) out.new ≡ out.old) }
{
    if from == to {
        return Ok(());
    }
    out.push(b'V')?;
    out.push_number(u64::from(to))
}
