//! Names and stops, as rows have them.

use carte_effect::{Halt, Stuck};
use carte_value::{Name, NoMemory};
use std::alloc::Global;

/// A word and a text behind it.
pub(crate) fn joined(alloc: Global, word: &str, text: &str) -> Result<String, NoMemory> {
    let mut all = String::from_str(alloc, word)?;
    all.push_str(text)?;
    Ok(all)
}

/// A word, and each name behind a blank.
pub(crate) fn named(alloc: Global, word: &str, names: &[Name]) -> Result<String, NoMemory> {
    let mut text = String::from_str(alloc, word)?;
    for name in names {
        text.push_str(" ")?;
        text.push_str(name.text())?;
    }
    Ok(text)
}

/// Where and why something stopped.
pub(crate) fn stop_text(alloc: Global, halt: &Halt<Stuck>) -> Result<String, NoMemory> {
    match halt {
        Halt::Stop(Stuck::NotDone(name)) => joined(alloc, "not done ", name.text()),
        Halt::Stop(Stuck::Missing(name)) => joined(alloc, "missing ", name.text()),
        Halt::NoMemory => Err(NoMemory),
    }
}
