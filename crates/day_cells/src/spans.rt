//! The days from the first to the last that was ever changed.

ghost use Rattle.std.specs.Prelude.{◌≡◌, ◌≤◌, IfSome};
ghost use Rattle.fixed_units.specs.Quantities.{IsDay};
ghost use Rattle.fixed_units.specs.Calendar.{days_of_calendar};
ghost use Rattle.day_cells.specs.Spans as spans;
ghost use Rattle.day_cells.specs.Spans.{IsSpan, days_of};

use fixed_units::Day;

/// The days from a first one to a last one.
#[derive(Clone, Copy, Debug, PartialEq, Eq)]
pub struct Span {
    /// The first day.
    pub first: Day,
    /// The last day, no earlier than the first.
    pub last: Day,
}

/// The span with a day in it too.
pub fn with_day(span: Option<Span>, day: Day) -> Option<Span>
    requires { IfSome span IsSpan }
    ensures value { result ≡ spans.with_day span day }
    ensures span { IfSome result IsSpan }
{
    let _number = day.get();
    let Some(span) = span else {
        return Some(Span {
            first: day,
            last: day,
        });
    };
    Some(Span {
        first: span.first.min(day),
        last: span.last.max(day),
    })
}

/// How many days a span has.
pub fn count_days(span: Option<Span>) -> u32
    requires { IfSome span IsSpan }
    ensures value { result ≡ days_of span }
    ensures most { result ≤ days_of_calendar }
{
    let Some(span) = span else { return 0 };
    (span.last.get() - span.first.get()) as u32 + 1
}
