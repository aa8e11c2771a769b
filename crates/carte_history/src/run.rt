// What a history is asked of a run, and what it shows.

use carte_io::Pick;
use carte_report::Status;
use carte_words::Word;

/// Where a run is cut off.
#[derive(Debug, Drop, Clone, Copy)]
pub enum Stop {
    /// Nowhere: it comes to its end, and the next run finds all that it wrote.
    None,
    /// Behind so many calls that write to the disk or sync it, with what a crash then leaves of the bytes that weren't synced.
    After(u64, Pick),
}

/// A run of the program: its words, the bytes of its book and of its script, and where it is cut off.
#[derive(Debug, Drop)]
pub struct Run {
    pub words: Vec<Word>,
    pub book: Vec<u8>,
    pub script: Vec<u8>,
    pub stop: Stop,
}

/// How a run ended, what stands on its standard output and standard error, and the state's bytes as the next run finds
/// them.
#[derive(Debug, Drop)]
pub struct Shown {
    pub status: Status,
    pub out: Vec<u8>,
    pub err: Vec<u8>,
    pub image: Vec<u8>,
}
