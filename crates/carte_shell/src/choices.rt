use carte_words::{Rebuilder4, Scheduler4};

/// What the words choose for all builds of a session.
#[derive(Clone, Copy, Debug)]
pub struct Choices {
    pub scheduler: Scheduler4,
    pub rebuilder: Rebuilder4,
    /// How many threads a build may use.
    pub workers: usize,
    /// Whether the rules that ran are listed.
    pub list: bool,
}
