//! The marking: which entries a build marks stale, what it drops, and what it begins with.
//!
//! A name has changed where an input was seen with a digest that it hasn't now, or an entry has a task that its key hasn't
//! now. A key is marked where its entry isn't stale yet and it has changed or leads to a changed name, by needs of needs.
//! One set of names grows from the changed names: passes over the entries put the key of each that needs a name of the set.
//! A build finishes needs first, so most entries stand behind those that they need, and one pass puts all; a second one over
//! those before the last key that was put shows that none is missing. Entries in a worse order would need a pass for each
//! step of the longest chain: where two rounds of passes weren't enough, the set goes on over a table of the keys that need
//! each name, and is itself the queue of the names whose users are to come. There is no recursion, and where no name has
//! changed no need is looked at. The marks are the keys of the set whose entries aren't stale, sorted once, at the end.
//!
//! A name that became something else, a seen one that is no input any more or an entry's key that is no rule, has changed
//! too: so those that a build drops are found among the changed ones alone. A digest costs more than all else that is asked
//! of an input, so that of a number is worked out once: many have the same.
//!
//! The contract is exact for any kept information, sound or not: marks are the list of what `IsMarked` says, and dropped
//! names of what `IsGone` says, in name order. Nothing is marked or dropped here: whoever builds does so, and takes it back
//! when the build is worked out.
//!
//! Whoever builds again and again keeps a `Watch`: it has learned which names may have changed since, and keeps the table of
//! the keys that need each name, so that a build begins in proportion to what changed. It may suspect too many, and its table
//! may name keys that need a name no more: each is looked at.
//!
//! Turned down: the table from the start, which costs several times the passes; a walk from each entry down to its inputs,
//! which goes over shared needs again and again; a tree of the marks, dearer than one sort; marks kept beside the entries,
//! which every reader of an entry would have to look at; and a marked copy of what is kept, dearer than the marking.
#![tactic(auto)]

mod base;
mod changed;
mod gone;
mod marking;
mod pass;
mod reach;
mod set;
mod tasks;
mod users;
mod walk;
mod watch;

pub use base::{Begun, begin};
pub use marking::{listed, mark};
pub use set::holds;
pub use tasks::{know_tasks, tasks_of};
pub use walk::put_each;
pub use watch::Watch;
