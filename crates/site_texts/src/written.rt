//! The texts of sites, written.

ghost use Rattle.std.specs.Prelude.{◌≡◌, ◌-◌, ◌≤◌, ◌++◌, length, replicate, OnOk, OnErr};
ghost use Rattle.site_texts.specs.SiteText.{site_text};

use arrayvec::ArrayVec;
use fixed_units::{NoMemory, Site, Text};

/// As many zeros as a site number has digits at most.
const ZEROS: [u8; 15] = *b"000000000000000";

/// The digits of a site number, with its zeros in front. It takes no memory.
pub fn site_digits(site: Site) -> ArrayVec<u8, 15>
    ensures digits { result.items ≡ site_text site }
    ensures few { length (site_text site) ≤ 15 }
{
    let mut buffer = itoa::Buffer::new();
    let value = buffer.format(site.value()).as_bytes();
    let mut digits = ArrayVec::new();
    let _fits = digits.try_extend_from_slice(zeros(site.digits(), value.len()));
    let _fits = digits.try_extend_from_slice(value);
    digits
}

/// Adds a site number with its zeros in front. After `NoMemory` the text is as before.
pub fn write_site(site: Site, out: &mut Text) -> Result<(), NoMemory>
    ensures ok { OnOk result (out.new ≡ out.old ++ site_text site) }
    ensures err { OnErr result (out.new ≡ out.old) }
{
    out.push_slice(site_digits(site).as_slice())
}

/// The zeros in front of so many digits of a site number.
fn zeros(digits: u8, written: usize) -> &'static [u8]
    requires { digits ≤ 15 }
    ensures { result.now ≡ replicate (digits - written) 48 }
{
    &ZEROS[..usize::from(digits).saturating_sub(written)]
}
