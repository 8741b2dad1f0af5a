//! Why a row is not taken, and why a file is not read at all.

ghost use Rattle.std.specs.Prelude.{◌≡◌, ◌++◌, OnOk};
ghost use Rattle.logger_files.specs.Reasons.{reason_text, told_line};

use fixed_units::{NoMemory, Text};

/// Why a row is not taken.
#[derive(Clone, Copy, Debug, PartialEq, Eq)]
pub enum Reason {
    /// It does not reach the column of times.
    NoTime,
    /// What stands there is no date and time by the pattern, or no stamp.
    Time,
    /// It does not reach the column of values.
    NoField,
    /// What stands there is a word for no value.
    NoValue,
    /// It is no decimal number.
    NoNumber,
    /// It has more than six decimals.
    Decimals,
    /// It is over 10,000,000 either way, or no stage once it is converted.
    Range,
    /// Its instant is not after that of the row that was taken before.
    Order,
}

/// Why a file is not read at all.
#[derive(Clone, Copy, Debug, PartialEq, Eq)]
pub enum FileFault {
    /// It has no line of names.
    NoNames,
    /// Its names lack the column of times.
    NoTimes,
    /// Its names lack the column of values.
    NoValues,
    /// There was no memory.
    NoMemory,
}

impl FileFault {
    /// The fault in words.
    pub fn text(self) -> &'static str {
        match self {
            FileFault::NoNames => "the file has no line of names",
            FileFault::NoTimes => "the names lack the column of times",
            FileFault::NoValues => "the names lack the column of values",
            FileFault::NoMemory => "out of memory",
        }
    }
}

impl From<NoMemory> for FileFault {
    ghost use Rattle.std.specs.Prelude.{◌≡◌};
    ghost use Rattle.logger_files.specs.declared.reasons.FileFault.TheVariants as Fault;

    ghost from_gives = { λ _ fault. fault ≡ Fault.NoMemory };

    fn from(_fault: NoMemory) -> FileFault {
        FileFault::NoMemory
    }
}

impl Reason {
    /// The reason in words.
    pub fn text(self) -> &'static str
        ensures { result.now ≡ reason_text self }
    {
        match self {
            Reason::NoTime => "no time",
            Reason::Time => "no time by the pattern",
            Reason::NoField => "no field for a value",
            Reason::NoValue => "no value",
            Reason::NoNumber => "no number",
            Reason::Decimals => "more than six decimals",
            Reason::Range => "out of range",
            Reason::Order => "not after the row taken before",
        }
    }
}

/// Adds the line that tells why the row of a line is not taken.
pub(crate) fn tell_line(number: u64, reason: Reason, out: &mut Text) -> Result<(), NoMemory>
    ensures { OnOk result (out.new ≡ out.old ++ told_line number reason) }
{
    out.push_slice(b"line ")?;
    out.push_number(number)?;
    out.push_slice(b": ")?;
    out.push_slice(reason.text().as_bytes())?;
    out.push(b'\n')
}
