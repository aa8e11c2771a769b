//! Spellings of data as bytes, and reading them again: the bytes of a state file, with no word about builds.
//!
//! Whatever is spelled has one trait, `Spelled`. It says three things of a type: what is written is the value's
//! spelling; what is read is there, and nothing is read exactly where the bytes begin with no spelling of anything that
//! fits; and bytes begin with one spelling at most. So what was written is read again, whatever stands behind it.
//!
//! The last is a law, and it follows from how a spelling is made: of a pair from those of its parts, of a list from that
//! of its items, of a struct from that of its fields as nested pairs. That also gives the reader: pairs, options and
//! lists have one impl each, a struct is read as nested pairs and taken apart, and no loop is written twice. Turned
//! down: decoding as a function on lists in `specs/`, which would be the reader once more with two laws a field, and
//! writing that works out lengths first. Whoever wants the length of a spelling alone has `Measured`.
//!
//! `write` says that what was written fits, rather than asking for it: that a name is a name, and a text not too long,
//! is known only to code that has asked the value, so no caller could show it. What a caller does keep to is `may`.
//!
//! A list may have a table beside its items, so reading goes by `ListOf`: an empty list, one item more, the items.
//! Reading takes memory as items come and never by the count that the bytes state, so that four bytes can't ask for
//! gigabytes; a count of a few is all that is believed beforehand, since most lists are that short, and a list that grows
//! by itself takes more than it needs. All of it is linear in the bytes.
#![tactic(auto)]

mod count;
mod digest;
mod items;
mod link;
mod list;
mod measured;
mod name;
mod option;
mod pair;
mod spelled;
mod truth;
mod unread;
mod value;

pub use list::{ListOf, read_list, write_list};
pub use measured::{Measured, items_length, list_length, with_item, without_item};
pub use spelled::Spelled;
pub use unread::Unread;
