//! The suspending scheduler: a rule that asks for a rule without a value waits until that one has a value.
//!
//! The targets are treated one after another. Each begins a path of names, newest first, of which each waits for the one
//! before it; the first of the path has a turn, and either ends, so that the next can go on, or waits for a rule that
//! wasn't demanded yet, which goes before it. Where it waits for a name that has nothing, or for a rule that was demanded
//! and isn't done, no turn can help: the path is dropped, and the next target is treated. Why targets have no value is
//! asked of the bench once, at the end.
//!
//! Jobs stay on the bench, so one that waits goes on where it stood, and each key is started once. A rule that was
//! demanded is never demanded again, so a build has at most two turns for each rule that it demands and one for each
//! target, and each is a few look-ups beside what its drive does.
//!
//! Two layers are proved, both of `carte_progress`. What stands on the bench (each open rule is on the path, or waits for a
//! name that will never come) holds over any kept information and of any jobs, and gives that a build ends. What is known
//! of values, and of a ledger by which each key is started once, holds over kept information that is sound, and gives the
//! rest. Over whatever is kept, what is done is finished under its own key, so a build that succeeds has finished each
//! target that is a rule.
//!
//! Turned down: a set of stuck keys, since a key that was put aside is one that stands on the bench and isn't on the path;
//! a recursion by needs, which would be as deep as the book; and a reason that the loop builds as it goes.
#![tactic(auto)]

mod building;
mod turns;

pub use building::build;
