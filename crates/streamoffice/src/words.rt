//! The words that the program is started with.

use std::alloc::AllocError;
use std::env::{self, Env, FillError};
use std::io::ErrorKind;

/// The environment of the program with its arguments from the first one behind its name on. The name is whatever the caller gave, and
/// need not be text.
#[derive(Drop)]
struct BehindName<'a> {
    rt: &'a HostRuntime,
}

impl Env for BehindName<'_> {
    fn arg(&self, i: usize, buf: &mut [u8]) -> Result<usize, FillError> {
        match i.checked_add(1) {
            Some(place) => self.rt.arg(place, buf),
            None => Err(FillError::NotPresent),
        }
    }

    fn var(&self, name: &str, buf: &mut [u8]) -> Result<usize, FillError> {
        self.rt.var(name, buf)
    }

    fn var_at(&self, i: usize, buf: &mut [u8]) -> Result<usize, FillError> {
        self.rt.var_at(i, buf)
    }
}

/// The words behind the program's name. Where one of them is no text they are no command's, so none are given.
///
/// # Errors
///
/// [`AllocError`] where there was no memory for them.
pub fn words_behind_name(rt: &HostRuntime) -> Result<Vec<String>, AllocError> {
    let mut words = Vec::new(rt.alloc());
    match env::args(&(BehindName { rt }, rt.alloc())) {
        Ok(all) => {
            for word in all {
                words.push(word)?;
            }
            Ok(words)
        }
        Err(error) if error.kind() == ErrorKind::OutOfMemory => Err(AllocError),
        Err(_) => Ok(words),
    }
}
