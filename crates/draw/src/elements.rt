//! The elements of a picture, as SVG 1.1 has them: paths and texts.

ghost use Rattle.std.specs.Prelude.{◌≡◌, ◌++◌, OnOk};
ghost use Rattle.draw.specs.Elements.{area_text, cross_text, end_text, label_end, label_start, level_text, move_text, place_text, start_text, tick_text, upright_text};

use fixed_units::{NoMemory, Text};

/// Adds the start of a path of a class.
#[tactic(auto, unfolding(crate::specs::Elements::start_text))]
pub fn start_path(class: &[u8], out: &mut Text) -> Result<(), NoMemory>
    ensures { OnOk result (out.new ≡ out.old ++ start_text class.now) }
{
    out.push_slice(b"<path class=\"")?;
    out.push_slice(class)?;
    out.push_slice(b"\" d=\"")
}

/// Adds its end.
#[tactic(auto, unfolding(crate::specs::Elements::end_text))]
pub fn end_path(out: &mut Text) -> Result<(), NoMemory>
    ensures { OnOk result (out.new ≡ out.old ++ end_text) }
{
    out.push_slice(b"\"/>\n")
}

/// Adds a move to a place.
#[tactic(auto, unfolding(crate::specs::Elements::move_text))]
fn write_move(x: u32, y: u32, out: &mut Text) -> Result<(), NoMemory>
    ensures { OnOk result (out.new ≡ out.old ++ move_text x y) }
{
    out.push(b'M')?;
    out.push_number(u64::from(x))?;
    out.push(b' ')?;
    out.push_number(u64::from(y))
}

/// Adds a level line.
#[tactic(auto, unfolding(crate::specs::Elements::level_text))]
pub fn write_level(from: u32, to: u32, y: u32, out: &mut Text) -> Result<(), NoMemory>
    ensures { OnOk result (out.new ≡ out.old ++ level_text from to y) }
{
    write_move(from, y, out)?;
    out.push(b'H')?;
    out.push_number(u64::from(to))
}

/// Adds an upright line.
#[tactic(auto, unfolding(crate::specs::Elements::upright_text))]
pub fn write_upright(x: u32, from: u32, to: u32, out: &mut Text) -> Result<(), NoMemory>
    ensures { OnOk result (out.new ≡ out.old ++ upright_text x from to) }
{
    write_move(x, from, out)?;
    out.push(b'V')?;
    out.push_number(u64::from(to))
}

/// Adds an area from one place across to another, between two heights.
#[tactic(auto, unfolding(crate::specs::Elements::area_text))]
pub fn write_area(from: u32, to: u32, top: u32, bottom: u32, out: &mut Text) -> Result<(), NoMemory>
    ensures { OnOk result (out.new ≡ out.old ++ area_text from to top bottom) }
{
    write_level(from, to, top, out)?;
    out.push(b'V')?;
    out.push_number(u64::from(bottom))?;
    out.push(b'H')?;
    out.push_number(u64::from(from))?;
    out.push(b'Z')
}

/// Adds a tick, downwards.
#[tactic(auto, unfolding(crate::specs::Elements::tick_text))]
pub fn write_tick(x: u32, y: u32, out: &mut Text) -> Result<(), NoMemory>
    ensures { OnOk result (out.new ≡ out.old ++ tick_text x y) }
{
    write_move(x, y, out)?;
    out.push_slice(b"v10")
}

/// Adds a cross.
#[tactic(auto, unfolding(crate::specs::Elements::cross_text))]
pub fn write_cross(x: u32, y: u32, out: &mut Text) -> Result<(), NoMemory>
    ensures { OnOk result (out.new ≡ out.old ++ cross_text x y) }
{
    write_move(x, y, out)?;
    out.push_slice(b"m-6-6l12 12m0-12l-12 12")
}

/// Adds the start of a text of a class that stands at a place.
#[tactic(auto, unfolding(crate::specs::Elements::label_start))]
pub fn start_label(class: &[u8], x: u32, y: u64, out: &mut Text) -> Result<(), NoMemory>
    ensures { OnOk result (out.new ≡ out.old ++ label_start class.now x y) }
{
    out.push_slice(b"<text class=\"")?;
    out.push_slice(class)?;
    write_place(x, y, out)
}

/// Adds the place of a text.
#[tactic(auto, unfolding(crate::specs::Elements::place_text))]
fn write_place(x: u32, y: u64, out: &mut Text) -> Result<(), NoMemory>
    ensures { OnOk result (out.new ≡ out.old ++ place_text x y) }
{
    out.push_slice(b"\" x=\"")?;
    out.push_number(u64::from(x))?;
    out.push_slice(b"\" y=\"")?;
    out.push_number(y)?;
    out.push_slice(b"\">")
}

/// Adds the end of a text.
#[tactic(auto, unfolding(crate::specs::Elements::label_end))]
pub fn end_label(out: &mut Text) -> Result<(), NoMemory>
    ensures { OnOk result (out.new ≡ out.old ++ label_end) }
{
    out.push_slice(b"</text>\n")
}
