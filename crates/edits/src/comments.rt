//! Why an edit was made, as the person who makes it says it.

ghost use Rattle.std.specs.Prelude.{◌≡◌, ◌↔◌, [], true, IsSome, IfSome, IfOk, OnErr};
ghost use Rattle.edits.specs.Texts.{IsComment};

use crate::names::are_printed;
use fixed_units::{NoMemory, Text};
use std::alloc::Global;
use std::marker::Model;

/// Why an edit was made: 0 to 200 characters from space to `~`. An empty comment takes no memory. Contracts see the bytes.
#[derive(Drop)]
pub struct Comment {
    /// The characters, where there are any.
    text: Option<Box<Text>>,
}

impl Model for Comment {
    ghost use Rattle.std.specs.Prelude.{List, ℕ, [], option_map, unwrap_or};
    ghost use Rattle.edits.specs.Texts.{IsComment};

    ghost Value = { List ℕ };

    ghost view = { λ c. unwrap_or (option_map (λ text. text.value) c.text) [] };

    ghost invariant = { λ c. IsComment (unwrap_or (option_map (λ text. text.value) c.text) []) };
}

impl Comment {
    /// The empty comment, which takes no memory.
    pub fn empty() -> Comment
        ensures { result ≡ [] }
    {
        Comment { text: None }
    }

    /// This comment, or `None` exactly where it is not 0 to 200 characters from space to `~`. It takes memory only where there are some.
    pub fn new(alloc: Global, codes: &[u8]) -> Result<Option<Comment>, NoMemory>
        ensures range { IfOk result (λ found. IsSome found ↔ IsComment codes.now) }
        ensures value { IfOk result (λ found. IfSome found (λ comment. comment ≡ codes.now)) }
        ensures memory { OnErr result (IsComment codes.now) }
    {
        if !is_comment(codes) {
            return Ok(None);
        }
        if codes.is_empty() {
            return Ok(Some(Comment::empty()));
        }
        let mut text = Text::new(alloc);
        text.push_slice(codes)?;
        let text = Box::new(alloc, text)?;
        Ok(Some(Comment { text: Some(text) }))
    }

    /// The bytes.
    pub fn as_slice(&self) -> &[u8]
        ensures codes { result.now ≡ self.now }
        ensures kept { IsComment self.now }
    {
        match &self.text {
            Some(text) => text.as_slice(),
            None => &[],
        }
    }
}

/// Whether the bytes are a comment: 0 to 200 characters from space to `~`.
pub fn is_comment(codes: &[u8]) -> bool
    ensures { result ≡ true ↔ IsComment codes.now }
{
    codes.len() <= 200 && are_printed(codes)
}
