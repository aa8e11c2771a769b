//! Names of keys: of rules and inputs in rule files, and of cells in sheets, with the places of these.
//!
//! A name keeps its fields to itself, and contracts see it as its bytes. It is one type for both kinds of books, with
//! its kind to be seen from its first byte: two types, or a kind beside the text, would have doubled every list and map.
//!
//! A name of at most 16 bytes stands in itself, and two numbers tell it from others: names are what lists and maps are
//! made of. Longer names share their bytes with their copies. An `Rc` would do so too, but no name could then pass to
//! another thread. Hash maps of names begin with a seed (`Seeded`), since names can be chosen that collide in a fixed
//! hash.
//!
//! There is room in a name for a number: where it stood last in some list, so that a look goes there first and compares
//! before it hashes. It rides along with copies, no view sees it, and no clause speaks of it: what is wrong costs a look.
//! Turned down: numbers for names in all contracts, and a number that a look writes, since a name is shared by threads.
//!
//! What is refused is told by a relation in `specs/`, never by the reader's loop again: the place of a fault is the
//! length of the longest prefix that begins some name. That cells and places of the sheet are the same is a law, the
//! contract of a function that does nothing.
//!
//! Tests of names take no memory, so a text that is no name is refused whether or not there is memory. They read bytes,
//! since names are ASCII: what is read from a file needn't be tried as UTF-8 first. A short name is tested where it will
//! stand, all of its bytes at once.
//!
//! `NoMemory` stands here too, as this is the lowest crate: every other one answers it.
#![tactic(auto)]

mod cell_name;
mod front;
mod held;
mod kind;
mod name;
mod name_fault;
mod name_text;
mod place;
mod place_law;
mod seeded;

pub use kind::Kind;
pub use name::{NAME_LIMIT, Name};
pub use name_fault::NameFault;
pub use place_law::cells_by_place;
pub use seeded::Seeded;
use std::alloc::{AllocError, AllocFailed};

/// There was no memory for what was asked. Nothing that was lent has changed, but where a call says otherwise.
#[derive(Clone, Copy, Debug, PartialEq, Eq)]
pub struct NoMemory;

impl From<AllocError> for NoMemory {
    fn from(_: AllocError) -> NoMemory {
        NoMemory
    }
}

impl<T: Drop> From<AllocFailed<T>> for NoMemory {
    fn from(_: AllocFailed<T>) -> NoMemory {
        NoMemory
    }
}
