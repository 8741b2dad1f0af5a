//! The options whose value is a number: their words, and which numbers they take.

ghost use Rattle.std.specs.Prelude.{◌≡◌, ◌≢◌, ◌≤◌, ℕ, MatchOption};
ghost use Rattle.command_words.specs.Words.{IsNumber, IsNumberOf, greatest_of, least_of, numeric_word};

/// An option whose value is a number.
#[derive(Clone, Copy, PartialEq, Eq)]
pub(crate) enum NumericOption {
    /// The number of a trial or of a measurement, at most 999,999,999.
    Number,
    /// The port that is listened on, 1 to 65,535.
    Port,
    /// How many workers are started, at most 16.
    Workers,
    /// How many connections are served, 1 to 10,000.
    Connections,
    /// How many turns are made, at most 999,999,999.
    Turns,
    /// The year in which a water year ends, 1901 to 2099.
    Year,
}

impl NumericOption {
    /// The option of this word.
    pub(crate) fn named(word: &str) -> Option<NumericOption>
        ensures { MatchOption result ((option : NumericOption) → word.now ≢ numeric_word option)
            (λ option. word.now ≡ numeric_word option) }
    {
        match word {
            "--number" => Some(NumericOption::Number),
            "--port" => Some(NumericOption::Port),
            "--workers" => Some(NumericOption::Workers),
            "--connections" => Some(NumericOption::Connections),
            "--turns" => Some(NumericOption::Turns),
            "--year" => Some(NumericOption::Year),
            _ => None,
        }
    }

    /// Its word.
    pub(crate) const fn word(self) -> &'static str
        ensures { result.now ≡ numeric_word self }
    {
        match self {
            NumericOption::Number => "--number",
            NumericOption::Port => "--port",
            NumericOption::Workers => "--workers",
            NumericOption::Connections => "--connections",
            NumericOption::Turns => "--turns",
            NumericOption::Year => "--year",
        }
    }

    /// The number that a value states with 1 to 9 decimal digits, where it is one of this option's.
    pub(crate) fn number_in(self, value: &str) -> Option<u32>
        ensures { MatchOption result ((number : ℕ) → ¬ (IsNumberOf self value.now number))
            (IsNumberOf self value.now) }
    {
        let number = number_of(value)?;
        if self.least() <= number && number <= self.greatest() {
            Some(number)
        } else {
            None
        }
    }

    const fn least(self) -> u32
        ensures { result ≡ least_of self }
    {
        match self {
            NumericOption::Number | NumericOption::Workers | NumericOption::Turns => 0,
            NumericOption::Port | NumericOption::Connections => 1,
            NumericOption::Year => 1_901,
        }
    }

    const fn greatest(self) -> u32
        ensures { result ≡ greatest_of self }
    {
        match self {
            NumericOption::Number | NumericOption::Turns => 999_999_999,
            NumericOption::Port => 65_535,
            NumericOption::Workers => 16,
            NumericOption::Connections => 10_000,
            NumericOption::Year => 2_099,
        }
    }
}

/// The number that a value states with 1 to 9 decimal digits.
fn number_of(value: &str) -> Option<u32>
    ensures { MatchOption result ((number : ℕ) → ¬ (IsNumber value.now number)) (IsNumber value.now) }
{
    if value.len() > 9 || value.starts_with('+') {
        return None;
    }
    value.parse().ok()
}
