//! Lists in which something is looked up, and the two that know names and values alone.
//!
//! A list in which something is looked up has a table from keys to places beside it, which grows with the list, and is
//! seen as the list alone. There are two, for any items that tell their key (`Keyed`). `Firsts` has the first place of
//! each key, where an item can be marked or replaced; `All` has all places, so it knows whether an item is new. Both know
//! in how many bytes their items are spelled. A list in a crate above is one of them behind the words of its items.
//! Turned down: a list for each kind of items, each with proofs of its own that say the same; and a map from keys to
//! items, which has no order and holds no key twice, where the lists of a state file have one and may.
//!
//! `Seen` has the names with the digests that they were seen with, `Store` the values by their digests, `NameTable`
//! names alone; a `Plain` list is one as its bytes have it, before it gets a table. `Seen` and `Store` each take in a
//! later list of their kind. `Seen` does by two steps: first the items whose keys it lacks are put behind what it has,
//! which can fail and is undone by cutting it; then what is left replaces items in place, which can't. A list with nothing
//! in it becomes the later one, unless a key comes twice in that. Turned down: to ask for room first, since the room of a
//! list can't be named where it is seen as a list; and place holders for what is lacking, each of which is replaced at once.
//!
//! Keys are copied into the tables, and digests go in as their bytes, which a hasher takes at once. Lists have about the
//! room that they need: a long one grows by a quarter of itself. The tables' hasher begins with a seed, which comes from
//! the caller.
#![tactic(auto)]

mod all;
mod digest_key;
mod firsts;
mod keyed;
mod named;
mod places;
mod plain;
mod seen;
mod store;
pub mod table;

pub use all::All;
pub use firsts::Firsts;
pub use keyed::{Compared, Keyed, Marked};
pub use named::{NameTable, name_table};
pub use places::Places;
pub use plain::Plain;
pub use seen::Seen;
pub use store::Store;
