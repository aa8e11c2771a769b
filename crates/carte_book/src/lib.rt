//! Books: names with inputs and rules, what each name's clean value is, and why a build may be refused.
//!
//! A book is a rule file or a sheet, and its names and those in its formulas are of its kind. The type keeps this, and
//! that each formula is as reading makes one, so that what is looked up can be run and printed without a test. In
//! memory a book is a hash map that keeps the order in which names were added, since it is looked up several times for
//! each key of a build, and name order is wanted once, for the digest: there the rules are sorted, or found to be in
//! order already, where a file has them so. Formulas are shared: a job holds its formula without the book. Contracts
//! see it as a finite map `Book` of the specs, with formulas as trees, and reach what stands at a name by `content` alone:
//! in a sheet each cell that the map doesn't hold is an empty input, and this default has one place. Two types for the
//! two kinds would have doubled every layer above.
//!
//! Names are added, each by one look at the map, and inputs are set. Each call says exactly when each fault comes, and
//! after one the book is as before. That there are 262,144 names at most is tested where one is added. Readers of bytes fill a
//! `Draft`, which tells this last and has room made for the keys that were counted; their faults stand here too.
//!
//! The clean values are defined by rounds of evaluation, as many as there are rules and one more. That is
//! a function without order, trace or file in it; that one more round changes nothing is proved once, and
//! every layer above uses only that. A least fixpoint as a relation would need no rounds, but then "has a
//! clean value" would be no test. What is reached is a relation, which is least by nature.
//!
//! A build is refused for a path from a target: round to a name on it, or astray to a name that has nothing. Where rules
//! are ordered before any is worked out, it is first of all refused for a path of written references to a dynamic rule,
//! one whose references its text doesn't tell. There may be many such paths; the first by length and then by names is
//! told, so that there is one answer.
//!
//! The digest of the rules, and that of one rule's task, are fed from the printed formulas and not from the texts that were
//! read, so blanks and needless brackets aren't part of them. A book keeps the first once it was asked for: it is asked for
//! each key by a rebuilder that compares all rules. That of a task stands beside its rule where it was to be kept, since a
//! build asks for it several times a key. The type keeps that what is known is right. The laws of the definitions are
//! contracts of functions that do nothing: only a contract is proved.
#![tactic(auto)]

mod access;
mod book;
mod digest;
mod draft;
mod edits;
mod fault;
mod inputs;
mod items;
mod key_text;
mod laws;
mod needs;
mod order;
mod places;
mod reason;
mod task;

pub use book::{Book, Item, Looked, Rule};
pub use draft::Draft;
pub use fault::{AddFault, BookFault, SetFault, Which};
pub use key_text::KeyText;
pub use laws::{
    clean_is_evaluated, clean_is_settled, clean_or_refused, one_digest, one_task,
    order_clean_or_refused, order_reason_is_unique, order_reason_or_clean, put_stands,
    reason_is_unique, reason_or_clean, stuck_need_is_last,
};
pub use needs::needs_are_names;
pub use reason::Reason;
