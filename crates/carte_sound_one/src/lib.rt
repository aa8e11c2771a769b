//! What was kept in version 1 of the state file, and why it may be trusted in version 2.
//!
//! Version 1 keeps one digest of all rules, and no task with an entry or a trace: all of it is about books with just these
//! rules. Its soundness is stated here as it was, over types of its own, and what is told of a book alone (what lies beneath
//! a name, the links of a trace, the digest of a value) is that of version 2, so that no recursion stands twice.
//!
//! Read by a book with the same rules, each entry and each trace of needs gets the task that its key has there, and is sound
//! for the history with that book behind it; deep traces, which named no rules, are left behind. Read by any other book it is
//! nothing. The one law here says so. Its one step that isn't a copy: each rule that a fresh key leads to has a fresh entry,
//! over entries of different books, which version 1 said only of the rules that a key needs itself.
//!
//! Turned down: to read the old entries with an empty task, which would make what is read unsound in between; and to tell
//! soundness of both versions at once, by a parameter for what has a task, for the sake of one law.
#![tactic(auto)]

mod laws;

pub use laws::up_is_sound;
