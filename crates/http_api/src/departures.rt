//! What is replied of a field measurement.

ghost use Rattle.std.specs.Prelude.{◌≡◌, ◌++◌, take, length, OnOk, OnErr};
ghost use Rattle.http_api.specs.Departures.{departure_text, grade_members, grade_text, hundredths_or_null, rated_members};
ghost use Rattle.http_api.specs.JsonTexts.{micro_or_null};

use crate::json_texts::write_micro_or_null;
use edits::Grade;
use fixed_units::{Micro, NoMemory, Text, write_hundredths};
use measurements::Departure;

/// Adds the body for a measurement, of which a part may be added where memory runs out.
pub(crate) fn write_departure(departure: &Departure, out: &mut Text) -> Result<(), NoMemory>
    ensures ok { OnOk result (out.new ≡ out.old ++ departure_text departure.now) }
    ensures err { OnErr result (take (length out.old) out.new ≡ out.old) }
{
    write_grade(departure.hundredths, departure.grade, out)?;
    write_rated(departure.indicated, departure.rated, out)
}

/// Adds the members up to the grade, of which a part may be added where memory runs out.
fn write_grade(hundredths: Option<i64>, grade: Grade, out: &mut Text) -> Result<(), NoMemory>
    ensures ok { OnOk result (out.new ≡ out.old ++ grade_members hundredths grade) }
    ensures err { OnErr result (take (length out.old) out.new ≡ out.old) }
{
    out.push_slice(b"{\"departure\":")?;
    write_hundredths_or_null(hundredths, out)?;
    out.push_slice(b",\"grade\":\"")?;
    out.push_slice(grade_name(grade))
}

/// Adds the members behind the grade, of which a part may be added where memory runs out.
fn write_rated(
    indicated: Option<Micro>,
    rated: Option<Micro>,
    out: &mut Text,
) -> Result<(), NoMemory>
    ensures ok { OnOk result (out.new ≡ out.old ++ rated_members indicated rated) }
    ensures err { OnErr result (take (length out.old) out.new ≡ out.old) }
{
    write_quantity(b"\",\"indicated_shift\":", indicated, out)?;
    write_quantity(b",\"rated\":", rated, out)?;
    out.push_slice(b"}")
}

/// Adds a quantity or null behind the name of its member, of which a part may be added where memory runs out.
fn write_quantity(before: &[u8], quantity: Option<Micro>, out: &mut Text) -> Result<(), NoMemory>
    ensures ok { OnOk result (out.new ≡ out.old ++ (before.now ++ micro_or_null quantity)) }
    ensures err { OnErr result (take (length out.old) out.new ≡ out.old) }
{
    out.push_slice(before)?;
    write_micro_or_null(quantity, out)
}

/// Adds a number of hundredths in quotes, or null, of which a part may be added where memory runs out.
fn write_hundredths_or_null(hundredths: Option<i64>, out: &mut Text) -> Result<(), NoMemory>
    ensures ok { OnOk result (out.new ≡ out.old ++ hundredths_or_null hundredths) }
    ensures err { OnErr result (take (length out.old) out.new ≡ out.old) }
{
    match hundredths {
        Some(hundredths) => {
            out.push_slice(b"\"")?;
            write_hundredths(hundredths, out)?;
            out.push_slice(b"\"")
        }
        None => out.push_slice(b"null"),
    }
}

/// The name of a grade, as in bodies of edits.
fn grade_name(grade: Grade) -> &'static [u8]
    ensures { result.now ≡ grade_text grade }
{
    match grade {
        Grade::Excellent => b"excellent",
        Grade::Good => b"good",
        Grade::Fair => b"fair",
        Grade::Poor => b"poor",
    }
}
