//! Numbers that are made of texts.

ghost use Rattle.std.specs.Prelude.{◌≡◌, ◌<◌};
ghost use Rattle.logger_files.specs.Digests as digests;
ghost use Rattle.logger_files.specs.Digests.{digest_from, modulus};

/// The prime below which the numbers are.
const MODULUS: u128 = 2_305_843_009_213_693_951;

/// The number of a text behind another number.
pub(crate) fn digest_from(before: u64, text: &[u8]) -> u64
    requires { before < modulus }
    ensures value { result ≡ digest_from before text.now }
    ensures below { result < modulus }
{
    let mut digest = before;
    let mut rest = text;
    while let [byte, behind @ ..] = rest {
        digest = digest_byte(digest, *byte);
        rest = behind;
    }
    digest
}

/// A number with a byte behind it.
fn digest_byte(before: u64, byte: u8) -> u64
    requires { before < modulus }
    ensures value { result ≡ digests.digest_byte before byte }
    ensures below { result < modulus }
{
    ((u128::from(before) * 1_000_003 + u128::from(byte) + 1) % MODULUS) as u64
}
