use carte_value::{Digest, Name, Names};

/// Why a build would run a key, or would not.
#[derive(Debug, Drop)]
pub enum Why {
    /// It doesn't run: it is an input.
    Input,
    /// It doesn't run: what is kept of it is right.
    Reusable,
    /// There is no trace of it.
    NoTrace,
    /// There are traces of it, but none of the present task: none of its present rule, and under deep traces none whose rules
    /// all are the present ones.
    RuleChanged,
    /// The newest of its traces of the present task has a link whose name has another digest now: the first such link. A name
    /// that is no input any more has the digest of the empty value as `new`.
    FirstDifference {
        name: Name,
        old: Digest,
        new: Digest,
    },
    /// A verifying trace of the present task has the present links, but tells of another result than the one that its entry
    /// has.
    StoredDiffers {
        stored: Digest,
        result: Digest,
    },
    /// It has no entry.
    NoEntry,
    /// Its entry was kept with the mark stale.
    Stale,
    /// Its entry was kept with the mark shallow.
    Shallow,
    /// Its entry leads to a name that has changed, and the first such name was seen as an input: the shortest path by needs of
    /// entries, from the key to that name, and of equally short ones the first in byte order.
    DirtyInput(Names),
    /// The first such name has an entry of another task than its present one: it is another rule now, or none. The path is the
    /// key alone where its own rule has changed.
    DirtyRule(Names),
}

/// The rebuilder that the work was done with.
#[derive(Clone, Copy, Debug)]
pub enum RebuilderKind {
    Dirty,
    Verifying,
    Constructive,
    Deep,
}
