//! An input is read whole, or told to be too long.

ghost use Rattle.std.specs.Prelude.{◌≡◌, ◌≢◌, ◌≤◌, ◌+◌, ◌<◌, [], length, IfSome, IfOk, Ok, Err, true, false};
ghost use Rattle.devices.specs.Faults.{Rose};
ghost use Rattle.whole_inputs.specs.Inputs.{Grows, IsTakenWithin, IsWhole};
ghost use Rattle.wire.specs.declared.limits.TheConstants.{BLOCK_BYTES};

use devices::{Source, Took};
use fixed_units::{NoMemory, Text};
use std::alloc::Global;
use thiserror::Error;
use wire::limits::BLOCK_BYTES;

/// Why an input was not read whole.
#[derive(Clone, Copy, Debug, PartialEq, Eq, Error)]
pub enum NotRead {
    /// The source failed.
    #[error("the input could not be read")]
    Failed,
    /// It is longer than it may be.
    #[error("the input is too long")]
    TooLong,
    /// There was no memory for it.
    #[error("no memory for the input")]
    NoMemory,
}

impl From<NoMemory> for NotRead {
    ghost use Rattle.std.specs.Prelude.{◌≡◌};
    ghost use Rattle.whole_inputs.specs.declared.inputs.NotRead.TheVariants as NotReads;

    ghost from_gives = { λ _ unread. unread ≡ NotReads.NoMemory };

    fn from(_error: NoMemory) -> NotRead {
        NotRead::NoMemory
    }
}

/// Takes a whole input of at most so many bytes. Of a longer one no more is taken than one byte beyond them, which tells that it is longer.
///
/// # Errors
///
/// [`NotRead::TooLong`] where the input is longer, [`NotRead::Failed`] only where the source failed in this call, and
/// [`NotRead::NoMemory`].
pub fn read_whole<S: Source>(alloc: Global, source: &mut S, most: usize) -> Result<Text, NotRead>
    ensures whole { IfOk result (λ text. IsWhole (S.left source.old) text (S.left source.new)) }
    ensures within { IfOk result (λ text. length text ≤ most) }
    ensures too_long { result ≡ Err NotRead.TooLong → IfSome (S.left source.old) (λ input. most < length input) }
    ensures taken { IsTakenWithin (most + 1) (S.left source.old) (S.left source.new) }
    ensures counted { S.faults source.old ≤ S.faults source.new }
    ensures cause { result ≡ Err NotRead.Failed → Rose (S.faults source.old) (S.faults source.new) }
{
    let mut block = zeros(alloc)?;
    let mut text = Text::new(alloc);
    while text.len() <= most {
        let room = BLOCK_BYTES.min((most - text.len()).saturating_add(1));
        if !take_more(source, &mut block[..room], &mut text)? {
            return Ok(text);
        }
    }
    Err(NotRead::TooLong)
}

/// A block for what a source gives.
fn zeros(alloc: Global) -> Result<Vec<u8>, NoMemory>
    ensures { IfOk result (λ block. length block.items ≡ BLOCK_BYTES) }
{
    Ok(vec![in alloc; 0; BLOCK_BYTES]?)
}

/// Takes what the source gives by way of the block, and adds it to the text; `false` at the source's end.
fn take_more<S: Source>(source: &mut S, block: &mut [u8], text: &mut Text) -> Result<bool, NotRead>
    requires { 0 < length block.old }
    ensures more { result ≡ Ok true → Grows (S.left source.old) text.old text.new (S.left source.new) }
    ensures proceeds { result ≡ Ok true → (length text.old < length text.new) × (length text.new ≤ length text.old + length block.old) }
    ensures ended { result ≡ Ok false → (text.new ≡ text.old) × IsWhole (S.left source.old) [] (S.left source.new) }
    ensures taken { IsTakenWithin (length block.old) (S.left source.old) (S.left source.new) }
    ensures counted { S.faults source.old ≤ S.faults source.new }
    ensures cause { result ≡ Err NotRead.Failed → Rose (S.faults source.old) (S.faults source.new) }
    ensures only { result ≢ Err NotRead.TooLong }
{
    match source.take(block) {
        Took::Bytes(count) => {
            text.push_slice(&block[..count])?;
            Ok(true)
        }
        Took::End => Ok(false),
        Took::Failed => Err(NotRead::Failed),
    }
}
