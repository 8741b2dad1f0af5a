//! What holds of every picture.

ghost use Rattle.std.specs.Prelude.{◌≡◌, true, ℕ, List, All, flat_map};
ghost use Rattle.std.specs.List.{list_all};
ghost use Rattle.drawings.specs.Columns.{columns, stroke_from};
ghost use Rattle.drawings.specs.Escapes.{escaped, is_plain};
ghost use Rattle.drawings.specs.Thinning.{IsColumn, Keeps};
ghost use Rattle.drawings.specs.declared.columns.Point.{Point};

/// The columns of points are all the points, in order, and each is points that stand one above another, of which all but the first are
/// joined to the one before.
pub fn columns_are_all_points()
    ensures whole { (points : List Point) → flat_map (λ column. column) (columns points) ≡ points }
    ensures each { (points : List Point) → All IsColumn (columns points) }
{}

/// What is kept of a column is its first, its least, its greatest and its last height.
pub fn strokes_keep_the_extremes()
    ensures { (p : Point) (points : List Point) → Keeps p points (stroke_from p points) }
{}

/// An escaped name has no byte that begins or ends an element or an attribute.
pub fn names_are_escaped()
    ensures { (name : List ℕ) → list_all is_plain (escaped name) ≡ true }
{}
