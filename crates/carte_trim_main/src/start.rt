// What a run begins with: its seed, and its words.
use carte_value::NoMemory;
use carte_words::Word;
use std::env;
use std::hash::{BuildHasher, RandomState};
use std::io::ErrorKind;

/// What the hashes of this run begin with. Where the system gives nothing random they begin as always.
pub(crate) fn seed(rt: &HostRuntime) -> u64 {
    match RandomState::new(rt) {
        Ok(state) => state.hash_one(0u64),
        Err(_) => 0,
    }
}

/// The words behind the program's name. Where one isn't UTF-8 there are none, which ask for nothing.
pub(crate) fn words(rt: &HostRuntime) -> Result<Vec<Word>, NoMemory> {
    let mut words = Vec::new(rt.alloc());
    match env::args(rt) {
        Ok(all) => {
            for text in all.skip(1) {
                words.push(Word::of(rt.alloc(), text.as_str())?)?;
            }
            Ok(words)
        }
        Err(error) if error.kind() == ErrorKind::InvalidData => Ok(words),
        Err(_) => Err(NoMemory),
    }
}
