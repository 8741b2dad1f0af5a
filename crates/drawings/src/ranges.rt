//! Round ranges: the numbers that an axis has, and those of them that are told beside it.

ghost use Rattle.std.specs.Prelude.{◌≡◌, ◌*◌, ◌<◌, ◌^◌, pos, ◌+ℤ◌, ◌≤ℤ◌, ◌<ℤ◌};

/// The numbers of an axis, and the step between those that are told beside it.
#[derive(Clone, Copy)]
pub struct Range {
    /// The least.
    pub least: i64,
    /// The greatest.
    pub greatest: i64,
    /// The step.
    pub step: i64,
    ghost rises: { least <ℤ greatest },
    ghost positive: { pos 0 <ℤ step },
}

impl Range {
    ghost use Rattle.drawings.specs.Ranges.{tick};

    /// A multiple of the step that is in the range, counted from its least number, or `None` exactly where it is beyond the greatest.
    pub fn tick(&self, place: u32) -> Option<i64>
        ensures { result ≡ tick self.now place }
    {
        let number = risen(self.least, rise(u64::from(place), self.step.unsigned_abs()));
        if number <= i128::from(self.greatest) {
            Some(number as i64)
        } else {
            None
        }
    }
}

/// How much a multiple of a step is.
fn rise(place: u64, step: u64) -> u128
    requires { place < 2 ^ 32 }
    ensures value { result ≡ place * step }
    ensures few { result < 2 ^ 96 }
{
    u128::from(place) * u128::from(step)
}

/// A number that has risen.
fn risen(least: i64, rise: u128) -> i128
    requires { rise < 2 ^ 96 }
    ensures value { result ≡ least +ℤ pos rise }
    ensures low { least ≤ℤ result }
{
    i128::from(least) + rise as i128
}
