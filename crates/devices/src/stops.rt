//! What a stop leaves of bytes that were written and not synced.

/// What becomes at a stop of the bytes that were written behind the last sync that was done.
#[derive(Clone, Copy, Debug, PartialEq, Eq)]
pub enum Unsynced {
    /// They are all there.
    Kept,
    /// None is there, and the disk is as long as at that sync.
    Lost,
    /// In the place of each there is the byte 1.
    Ones,
}
