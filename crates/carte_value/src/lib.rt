//! Values, texts, areas and lists: what every other crate of `carte` speaks of, with the names of `carte_name`, which it
//! hands on.
//!
//! Texts and lists keep their fields to themselves, and contracts see them as bytes and as lists of items. A value is a
//! plain enum, so that contracts go by its cases. One generic list serves all items, in place of a type for each. It is
//! a type of its own and no bare `Vec`, so that contracts speak of items and not of capacities. An area is plain too,
//! with the condition on its sides in the contracts: it stands in trees of formulas, where an invariant in the type
//! would stand in the way.
//!
//! Texts share their bytes with their copies, since a long text may be looked up by thousands of rules. An `Rc` would
//! do so too, but no value could then pass to another thread.
//!
//! What is promised of a format is a relation between bytes and values in `specs/`, never the reader's loop again:
//! bytes begin with a spelling, a text is the printed form of a text. Laws over all values (no spelling begins another,
//! what was printed is read again, no cell stands in an area twice) are contracts of functions that do nothing.
//!
//! Texts are read byte by byte into new memory and only then tried as UTF-8, rather than character by character: the
//! bytes that are no text are then refused by what a text is, and not by a proof about characters.
//!
//! Where names are told apart one after the other, each gets a number, its place among them (`Numbering`): contracts see
//! the list of the names, so what is kept by number above is still said of names.
//!
//! `specs/` also has what the crates above share: truths (what names have as values), computations that ask for the
//! values of names, and lists of names. Their laws stand in `proofs/`.
#![tactic(auto)]

mod area;
mod area_law;
mod asks_law;
mod digest;
mod items;
mod link;
mod numbering;
mod printing;
mod reading;
mod reading_law;
mod shared_links;
mod spelling;
mod spelling_law;
mod text;
mod text_fault;
mod value;

pub use area::Area;
pub use area_law::{cells_within, each_cell_once};
pub use asks_law::{grown, stuck_is_last};
pub use carte_name::{Kind, NAME_LIMIT, Name, NameFault, NoMemory, Seeded, cells_by_place};
pub use digest::Digest;
pub use items::{Items, LIST_LIMIT, Same};
pub use link::{Link, Links, Names, Values};
pub use numbering::Numbering;
pub use printing::quoted;
pub use reading::read_number;
pub use reading_law::{one_reading, printed_reads};
pub use shared_links::SharedLinks;
pub use spelling_law::{every_value, one_spelling};
pub use text::{TEXT_LIMIT, Text};
pub use text_fault::TextFault;
pub use value::{Bad, Value};
