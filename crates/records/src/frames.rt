//! The frame that a journal has round the payloads of its records, in either format.

/// How many bytes the header of a journal has.
pub const HEADER_LEN: u64 = 16;

/// How many bytes stand before a payload: an open gate, and the length in four.
pub const BEFORE_PAYLOAD: u64 = 5;
