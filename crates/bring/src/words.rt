//! The word that the program is started with: where the profile is.

use std::{env, fs};

/// Why there is no text of a profile.
pub enum NoProfile {
    /// The words are not one.
    Words,
    /// There is no such file, or it could not be read.
    File,
}

/// The text of the profile whose file the only word names.
pub fn profile_text(rt: &HostRuntime) -> Result<Vec<u8>, NoProfile> {
    let Ok(mut words) = env::args(&(rt, rt.alloc())) else {
        return Err(NoProfile::Words);
    };
    let _name = words.next();
    let Some(path) = words.next() else {
        return Err(NoProfile::Words);
    };
    if words.next().is_some() {
        return Err(NoProfile::Words);
    }
    fs::read(rt, path.as_str()).map_err(|_| NoProfile::File)
}
