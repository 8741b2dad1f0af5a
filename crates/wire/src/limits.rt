//! How much of a stream is looked at and taken.

ghost use Rattle.std.specs.Prelude.{◌≡◌, ◌^◌};

/// How many bytes a head may have, with the empty lines before it.
pub const HEAD_BYTES: usize = 8_192;

/// How many fields a head may have.
pub const HEAD_FIELDS: usize = 64;

/// How many bytes a body may have that is taken.
pub const BODY_BYTES: u32 = 4_194_304;

/// How many digits may state a body's length.
pub const LENGTH_DIGITS: usize = 8;

/// How many bytes are taken of a stream, at most.
pub const STREAM_BYTES: u64 = 68_719_476_736;

/// How many bytes are asked of a source at a time, at most.
pub const BLOCK_BYTES: usize = 65_536;

/// The numbers for which these names stand, which the definitions cite: a law, which does nothing.
pub fn limits_have_these_numbers()
    ensures head { HEAD_BYTES ≡ 8192 }
    ensures fields { HEAD_FIELDS ≡ 64 }
    ensures body { BODY_BYTES ≡ 4194304 }
    ensures digits { LENGTH_DIGITS ≡ 8 }
    ensures stream { STREAM_BYTES ≡ 2 ^ 36 }
    ensures block { BLOCK_BYTES ≡ 65536 }
{}
