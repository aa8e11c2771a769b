//! Generated books: rule files of any number of keys, of which a seed tells all, to measure builds with.
//!
//! The first tenth of the keys are inputs, and each later key is a rule over two keys before it, one of them close by. So
//! chains of rules are long, and no rule is on a circle. Which book that is stands in `specs/Generated.antt`, as what each
//! key has: the draws that a key takes are told by its place, so that no key's item is told by another's.
//!
//! The book is made as a book, with its formulas as trees. To write the text of a rule file and read it would take several
//! times as long, and its contract would be one of texts. That the text of the same formulas has the same digest is
//! tested.
//!
//! Whether a name may be added is a matter of its key alone: keys below one another are different names, and there are
//! 262,144 at most. So nothing is refused but for want of memory.
#![tactic(auto)]

mod draws;
mod formula;
mod growing;
mod keys;

pub use growing::{generated, inputs_of};
pub use keys::last_key;
