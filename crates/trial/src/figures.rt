//! The figures of a trial as text.

ghost use Rattle.std.specs.Prelude.{◌≡◌, ◌++◌, OnOk};
ghost use Rattle.trial.specs.Figures.{figure_line};

use fixed_units::{NoMemory, Text};

/// Adds the line of a figure: its name, a space, its digits and the end of the line.
///
/// # Errors
///
/// [`NoMemory`]: a front of the line may stand in the text then.
pub(crate) fn write_figure(name: &[u8], figure: u64, out: &mut Text) -> Result<(), NoMemory>
    ensures { OnOk result (out.new ≡ out.old ++ figure_line name.now figure) }
{
    out.push_slice(name)?;
    out.push(b' ')?;
    out.push_number(figure)?;
    out.push(b'\n')
}
