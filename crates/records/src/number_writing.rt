//! The bytes of numbers, instants, days and quantities, added to a vector.

ghost use Rattle.std.specs.Prelude.{◌≡◌, ◌++◌, OnOk};
ghost use Rattle.std.specs.Int.{w32, to_le_bytes};
ghost use Rattle.records.specs.Payloads.{signed_number, point_bytes, day_number};

use fixed_units::{Day, Micro, NoMemory, Second};

/// Adds the stage of a point, and its amount or discharge.
pub(crate) fn put_point(out: &mut Vec<u8>, point: &(Micro, Micro)) -> Result<(), NoMemory>
    ensures { OnOk result (out.new.items ≡ out.old.items ++ point_bytes point.now) }
{
    put_micro(out, point.0)?;
    put_micro(out, point.1)
}

/// Adds a number of 32 bits.
pub(crate) fn put_u32(out: &mut Vec<u8>, number: u32) -> Result<(), NoMemory>
    ensures { OnOk result (out.new.items ≡ out.old.items ++ to_le_bytes w32 number) }
{
    out.extend_from_slice(&number.to_le_bytes())?;
    Ok(())
}

/// Adds an instant.
pub(crate) fn put_second(out: &mut Vec<u8>, at: Second) -> Result<(), NoMemory>
    ensures { OnOk result (out.new.items ≡ out.old.items ++ signed_number at) }
{
    out.extend_from_slice(&at.get().to_le_bytes())?;
    Ok(())
}

/// Adds a day.
pub(crate) fn put_day(out: &mut Vec<u8>, day: Day) -> Result<(), NoMemory>
    ensures { OnOk result (out.new.items ≡ out.old.items ++ day_number day) }
{
    out.extend_from_slice(&day.get().to_le_bytes())?;
    Ok(())
}

/// Adds a quantity.
pub(crate) fn put_micro(out: &mut Vec<u8>, amount: Micro) -> Result<(), NoMemory>
    ensures { OnOk result (out.new.items ≡ out.old.items ++ signed_number amount) }
{
    out.extend_from_slice(&amount.get().to_le_bytes())?;
    Ok(())
}
