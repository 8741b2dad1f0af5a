//! The options behind a command's word: `--name value` in two words or `--name=value` in one, in any order.

ghost use Rattle.std.specs.Prelude.{◌≡◌, ◌≢◌, ◌<◌, ℕ, List, [], ◌∷◌, ◌++◌, codes, length, map, string_bytes, Contains, MatchOption, IfSome};
ghost use Rattle.std.specs.List.{count_by};
ghost use Rattle.edits.specs.declared.measurements.Grade.{Grade};
ghost use Rattle.command_words.specs.Words.{Given, Journal, Numeric, Station, Column, Sender, Reference, From, To, At, Gage, Graded, AreOptions, IsOption, StandsFirst, grade_word, numeric_word, option_word};
ghost use Rattle.command_words.specs.Reading.{AreNoCommands, IsFound, IsOptionOf, NoneStandsFirst, given_by, given_in, is_worded};

use crate::numbers::NumericOption;
use arrayvec::ArrayVec;
use civil_days::{read_day, read_instant};
use edits::{By, Grade, Ref};
use fixed_units::{Day, Micro, Second, Site, is_stage, read_decimal};
use site_texts::read_site;

/// The most options that a command has.
const MOST: usize = 8;

/// An option, with what its value says.
#[derive(Clone, Copy)]
pub(crate) enum CommandOption<'a> {
    /// The journal's name, which is not empty.
    Journal(&'a str),
    /// A number.
    Numeric(NumericOption, u32),
    /// A site.
    Station(Site),
    /// The name of a column, which is not empty.
    Column(&'a str),
    /// The initials of a person.
    Sender(&'a str),
    /// A reference.
    Reference(&'a str),
    /// What stands behind `--from`, which is not empty: a day, or a journal's name.
    From(&'a str),
    /// The last day.
    To(Day),
    /// A stamp.
    At(Second),
    /// A gage height.
    Gage(Micro),
    /// How good a measurement is.
    Graded(Grade),
}

impl CommandOption<'_> {
    /// Its word.
    fn word(&self) -> &'static str
        ensures { result.now ≡ option_word (given_by self.now) }
    {
        match self {
            CommandOption::Journal(_) => "--journal",
            CommandOption::Numeric(option, _) => option.word(),
            CommandOption::Station(_) => "--site",
            CommandOption::Column(_) => "--column",
            CommandOption::Sender(_) => "--by",
            CommandOption::Reference(_) => "--ref",
            CommandOption::From(_) => "--from",
            CommandOption::To(_) => "--to",
            CommandOption::At(_) => "--at",
            CommandOption::Gage(_) => "--gage",
            CommandOption::Graded(_) => "--grade",
        }
    }
}

impl Default for CommandOption<'_> {
    fn default() -> Self {
        CommandOption::Journal("")
    }
}

/// The options that were read.
#[derive(Drop)]
pub(crate) struct Options<'a> {
    given: ArrayVec<CommandOption<'a>, MOST>,
}

impl<'a> Options<'a> {
    /// How many there are.
    pub(crate) fn count(&self) -> usize
        ensures { result ≡ length (given_in self.now) }
    {
        self.given.len()
    }

    /// The first option of this word.
    fn find(&self, word: &str) -> Option<&CommandOption<'a>>
        ensures { MatchOption result (count_by (is_worded word.now) (given_in self.now) ≡ 0)
            (λ option. Contains (given_in self.now) (given_by option.now) × (option_word (given_by option.now) ≡ word.now)) }
    {
        let given = self.given.as_slice();
        for option in given {
            if option.word() == word {
                return Some(option);
            }
        }
        None
    }

    /// The journal's name.
    pub(crate) fn journal(&self) -> Option<&'a str>
        ensures { IsFound (codes "--journal") (λ name. Journal name.now) (given_in self.now) result }
    {
        match self.find("--journal") {
            Some(CommandOption::Journal(name)) => Some(*name),
            _ => None,
        }
    }

    /// The number of this option.
    pub(crate) fn number(&self, option: NumericOption) -> Option<u32>
        ensures { IsFound (numeric_word option) (Numeric option) (given_in self.now) result }
    {
        match self.find(option.word()) {
            Some(CommandOption::Numeric(_, number)) => Some(*number),
            _ => None,
        }
    }

    /// The site.
    pub(crate) fn site(&self) -> Option<Site>
        ensures { IsFound (codes "--site") Station (given_in self.now) result }
    {
        match self.find("--site") {
            Some(CommandOption::Station(site)) => Some(*site),
            _ => None,
        }
    }

    /// The name of the column.
    pub(crate) fn column(&self) -> Option<&'a str>
        ensures { IsFound (codes "--column") (λ name. Column name.now) (given_in self.now) result }
    {
        match self.find("--column") {
            Some(CommandOption::Column(name)) => Some(*name),
            _ => None,
        }
    }

    /// The initials of the person.
    pub(crate) fn sender(&self) -> Option<&'a str>
        ensures { IsFound (codes "--by") (λ letters. Sender letters.now) (given_in self.now) result }
    {
        match self.find("--by") {
            Some(CommandOption::Sender(letters)) => Some(*letters),
            _ => None,
        }
    }

    /// The reference.
    pub(crate) fn reference(&self) -> Option<&'a str>
        ensures { IsFound (codes "--ref") (λ text. Reference text.now) (given_in self.now) result }
    {
        match self.find("--ref") {
            Some(CommandOption::Reference(text)) => Some(*text),
            _ => None,
        }
    }

    /// What stands behind `--from`.
    pub(crate) fn from(&self) -> Option<&'a str>
        ensures { IsFound (codes "--from") (λ text. From text.now) (given_in self.now) result }
    {
        match self.find("--from") {
            Some(CommandOption::From(text)) => Some(*text),
            _ => None,
        }
    }

    /// The last day.
    pub(crate) fn to(&self) -> Option<Day>
        ensures { IsFound (codes "--to") To (given_in self.now) result }
    {
        match self.find("--to") {
            Some(CommandOption::To(day)) => Some(*day),
            _ => None,
        }
    }

    /// The stamp.
    pub(crate) fn at(&self) -> Option<Second>
        ensures { IsFound (codes "--at") At (given_in self.now) result }
    {
        match self.find("--at") {
            Some(CommandOption::At(instant)) => Some(*instant),
            _ => None,
        }
    }

    /// The gage height.
    pub(crate) fn gage(&self) -> Option<Micro>
        ensures { IsFound (codes "--gage") Gage (given_in self.now) result }
    {
        match self.find("--gage") {
            Some(CommandOption::Gage(stage)) => Some(*stage),
            _ => None,
        }
    }

    /// How good the measurement is.
    pub(crate) fn grade(&self) -> Option<Grade>
        ensures { IsFound (codes "--grade") Graded (given_in self.now) result }
    {
        match self.find("--grade") {
            Some(CommandOption::Graded(grade)) => Some(*grade),
            _ => None,
        }
    }
}

/// The options that the words are, in their order, or `None` where they are none, or more than a command has.
pub(crate) fn read_options(words: &[String]) -> Option<Options<'_>>
    ensures { MatchOption result (AreNoCommands (map string_bytes words.now))
        (λ options. AreOptions (given_in options) (map string_bytes words.now)) }
{
    let mut given = ArrayVec::new();
    let mut rest = words;
    while !rest.is_empty() {
        let Some((option, behind)) = first_option(rest) else {
            return None;
        };
        if given.is_full() {
            return None;
        }
        given.push(option);
        rest = behind;
    }
    Some(Options { given })
}

/// The option that the first words are, and the words behind it.
fn first_option(words: &[String]) -> Option<(CommandOption<'_>, &[String])>
    ensures first { MatchOption result (NoneStandsFirst (map string_bytes words.now))
        (λ read. StandsFirst (given_by read.0) (map string_bytes words.now) (map string_bytes read.1.now)) }
    ensures fewer { IfSome result (λ read. length read.1.now < length words.now) }
{
    let (word, behind) = words.split_first()?;
    if let Some(option) = joined_option(word.as_str()) {
        return Some((option, behind));
    }
    let (value, behind) = behind.split_first()?;
    match separate_option(word.as_str(), value.as_str()) {
        Some(option) => Some((option, behind)),
        None => None,
    }
}

/// The option that a word is by itself, as `--name=value`.
fn joined_option(word: &str) -> Option<CommandOption<'_>>
    ensures { MatchOption result ((option : Given) → ¬ (IsOption option (word.now ∷ [])))
        (λ option. IsOption (given_by option) (word.now ∷ [])) }
{
    let (name, value) = word.split_once('=')?;
    option_of(name, value)
}

/// The option that two words are, as `--name value`.
fn separate_option<'a>(word: &str, value: &'a str) -> Option<CommandOption<'a>>
    ensures { MatchOption result ((option : Given) → ¬ (IsOption option (word.now ∷ value.now ∷ [])))
        (λ option. IsOption (given_by option) (word.now ∷ value.now ∷ [])) }
{
    if value.starts_with('-') {
        None
    } else {
        option_of(word, value)
    }
}

/// The option of this word and value.
fn option_of<'a>(word: &str, value: &'a str) -> Option<CommandOption<'a>>
    ensures { IsOptionOf word.now value.now result }
{
    if let Some(option) = NumericOption::named(word) {
        return numeric_option(option, value);
    }
    match word {
        "--journal" => journal_option(value),
        "--site" => station_option(value),
        "--column" => column_option(value),
        "--by" => sender_option(value),
        "--ref" => reference_option(value),
        "--from" => from_option(value),
        "--to" => to_option(value),
        "--at" => at_option(value),
        "--gage" => gage_option(value),
        "--grade" => graded_option(value),
        _ => None,
    }
}

fn numeric_option(option: NumericOption, value: &str) -> Option<CommandOption<'_>>
    ensures { IsOptionOf (numeric_word option) value.now result }
{
    let number = option.number_in(value)?;
    Some(CommandOption::Numeric(option, number))
}

fn from_option(value: &str) -> Option<CommandOption<'_>>
    ensures { IsOptionOf (codes "--from") value.now result }
{
    if value.is_empty() {
        return None;
    }
    Some(CommandOption::From(value))
}

fn to_option(value: &str) -> Option<CommandOption<'_>>
    ensures { IsOptionOf (codes "--to") value.now result }
{
    let day = read_day(value.as_bytes())?;
    Some(CommandOption::To(day))
}

fn journal_option(value: &str) -> Option<CommandOption<'_>>
    ensures { IsOptionOf (codes "--journal") value.now result }
{
    if value.is_empty() {
        return None;
    }
    Some(CommandOption::Journal(value))
}

fn column_option(value: &str) -> Option<CommandOption<'_>>
    ensures { IsOptionOf (codes "--column") value.now result }
{
    if value.is_empty() {
        return None;
    }
    Some(CommandOption::Column(value))
}

fn station_option(value: &str) -> Option<CommandOption<'_>>
    ensures { IsOptionOf (codes "--site") value.now result }
{
    let site = read_site(value.as_bytes())?;
    Some(CommandOption::Station(site))
}

fn sender_option(value: &str) -> Option<CommandOption<'_>>
    ensures { IsOptionOf (codes "--by") value.now result }
{
    By::new(value.as_bytes())?;
    Some(CommandOption::Sender(value))
}

fn reference_option(value: &str) -> Option<CommandOption<'_>>
    ensures { IsOptionOf (codes "--ref") value.now result }
{
    Ref::new(value.as_bytes())?;
    Some(CommandOption::Reference(value))
}

fn at_option(value: &str) -> Option<CommandOption<'_>>
    ensures { IsOptionOf (codes "--at") value.now result }
{
    let instant = read_instant(value.as_bytes())?;
    Some(CommandOption::At(instant))
}

fn gage_option(value: &str) -> Option<CommandOption<'_>>
    ensures { IsOptionOf (codes "--gage") value.now result }
{
    match read_decimal(value.as_bytes()) {
        Ok(stage) if is_stage(stage.get()) => Some(CommandOption::Gage(stage)),
        _ => None,
    }
}

fn graded_option(value: &str) -> Option<CommandOption<'_>>
    ensures { IsOptionOf (codes "--grade") value.now result }
{
    let grade = grade_named(value)?;
    Some(CommandOption::Graded(grade))
}

/// The grade of this word.
pub(crate) fn grade_named(word: &str) -> Option<Grade>
    ensures { MatchOption result ((grade : Grade) → word.now ≢ grade_word grade)
        (λ grade. word.now ≡ grade_word grade) }
{
    match word {
        "excellent" => Some(Grade::Excellent),
        "good" => Some(Grade::Good),
        "fair" => Some(Grade::Fair),
        "poor" => Some(Grade::Poor),
        _ => None,
    }
}
