//! What a logger's number is in millionths of a foot.

ghost use Rattle.std.specs.Prelude.{◌≡◌, ◌*◌, ◌^◌, pos, neg_ℤ, ◌+ℤ◌, ◌*ℤ◌, ◌≤ℤ◌, ◌<ℤ◌, option_map};
ghost use Rattle.fixed_units.specs.Quantities.{is_stage};
ghost use Rattle.civil_days.specs.Spelling.{only};
ghost use Rattle.logger_files.specs.Rows.{converted};

use fixed_units::{Micro, div_half_away, is_stage};

/// How a logger's numbers become feet: times a factor, parted by a divisor, and moved by an offset, each in millionths.
#[derive(Clone, Copy, Debug)]
pub struct Unit {
    /// What a number is multiplied with.
    pub factor: Micro,
    /// What the product is divided by.
    pub divisor: Micro,
    /// What is added.
    pub offset: Micro,
}

/// The stage that a number is, rounded once to a millionth, half away from zero; `None` where it is none.
pub(crate) fn stage_of(unit: Unit, number: Micro) -> Option<Micro>
    requires { pos 0 <ℤ unit.divisor }
    ensures { result ≡ only is_stage (Some (converted unit number)) }
{
    let divisor = i128::from(unit.divisor.get());
    stage_at(div_half_away(sum_of(unit, number), divisor))
}

/// What is divided: the product with the factor, moved by as many divisors as the offset has.
fn sum_of(unit: Unit, number: Micro) -> i128
    ensures value { result ≡ number *ℤ unit.factor +ℤ unit.offset *ℤ unit.divisor }
    ensures low { neg_ℤ (pos (2 * 10 ^ 34)) ≤ℤ result }
    ensures high { result ≤ℤ pos (2 * 10 ^ 34) }
{
    product(number, unit.factor) + product(unit.offset, unit.divisor)
}

/// The product of two quantities.
fn product(one: Micro, other: Micro) -> i128
    ensures value { result ≡ one *ℤ other }
    ensures low { neg_ℤ (pos (10 ^ 34)) ≤ℤ result }
    ensures high { result ≤ℤ pos (10 ^ 34) }
{
    i128::from(one.get()) * i128::from(other.get())
}

/// That many millionths, if they are a stage.
fn stage_at(millionths: i128) -> Option<Micro>
    ensures { result ≡ only is_stage (Some millionths) }
{
    if (-100_000_000_000..=100_000_000_000).contains(&millionths) {
        Some(Micro::of_millionths(millionths as i64))
    } else {
        None
    }
}
