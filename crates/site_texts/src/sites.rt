//! The texts of sites, read.

ghost use Rattle.std.specs.Prelude.{◌≡◌, ◌≤◌, length, true};
ghost use Rattle.std.specs.List.{list_all};
ghost use Rattle.std.specs.Char.{is_ascii_digit};
ghost use Rattle.std.specs.Str.Parse.{digits_value};
ghost use Rattle.site_texts.specs.SiteText.{site_of_text};

use fixed_units::Site;

/// The site of a text of 8 to 15 digits, or `None` exactly where it is no such text. It takes no memory.
#[tactic(auto, using(crate::proofs::SiteLemmas::digits_below))]
pub fn read_site(text: &[u8]) -> Option<Site>
    ensures { result ≡ site_of_text text.now }
{
    if !(8..=15).contains(&text.len()) || !are_digits(text) {
        return None;
    }
    Site::new(text.len() as u8, number_of(text))
}

/// Whether each byte is a decimal digit.
fn are_digits(text: &[u8]) -> bool
    ensures { result ≡ list_all is_ascii_digit text.now }
{
    text.iter().all(u8::is_ascii_digit)
}

/// The number that the digits write.
#[tactic(auto, using(crate::proofs::SiteLemmas::one_digit_more))]
fn number_of(digits: &[u8]) -> u64
    requires digits { list_all is_ascii_digit digits.now ≡ true }
    requires few { length digits.now ≤ 15 }
    ensures { result ≡ digits_value 10 digits.now }
{
    let mut value = 0;
    for digit in digits {
        value = value * 10 + u64::from(*digit - b'0');
    }
    value
}
