use crate::Word;
use carte_value::{Kind, Names};

/// What is to be done.
#[derive(Clone, Copy, Debug, PartialEq, Eq)]
pub enum Command {
    /// The targets.
    Build,
    /// The lines of a script, one by one.
    Session,
    /// To tell of each target why it would run, or would not.
    Explain,
    /// To empty the state.
    Clean,
    /// The last key of a generated book.
    Generate,
}

/// The order in which rules are run.
#[derive(Clone, Copy, Debug, PartialEq, Eq)]
pub enum Scheduler4 {
    /// Each rule after those that its formula refers to. Formulas that choose what they refer to are refused.
    Topological,
    /// The rules as they were finished last; one that asks for another is given up, and begun anew behind it.
    Restarting,
    /// The rules as they are asked for; one that waits for another is gone on with later.
    Suspending,
}

/// How it is decided whether an old result may be given.
#[derive(Clone, Copy, Debug, PartialEq, Eq)]
pub enum Rebuilder4 {
    /// Where no input changed that it was made of.
    Dirty,
    /// Where all that it was made of has the digests of a trace.
    Verifying,
    /// The same, with results of any time.
    Constructive,
    /// Where the inputs that it was made of have the digests of a trace.
    Deep,
}

/// What the words of the command line ask for.
#[derive(Debug, Drop)]
pub struct Words {
    pub command: Command,
    /// The file of the book.
    pub book: Word,
    /// The file of the state.
    pub state: Word,
    pub kind: Kind,
    pub scheduler: Scheduler4,
    pub rebuilder: Rebuilder4,
    /// How many threads a build may use, from 1 to 64; above 1 with the suspending scheduler alone.
    pub workers: usize,
    /// Whether the rules that were run are listed.
    pub list: bool,
    /// The keys that are to be built, or explained, in their order.
    pub targets: Names,
    /// What a generated book is drawn from, and 0 where none is asked for.
    pub seed: u64,
    /// How many keys it has.
    pub count: u64,
}
