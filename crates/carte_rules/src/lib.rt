//! Rule files: TOML documents of inputs and rules, read into books.
//!
//! Which bytes are a rule file is a definition: the document is TOML's own, as the crate `toml` defines it,
//! then come its tables, the inputs and the rules in byte order of their keys, and the number of keys last.
//! Up to the inputs it is a function. Since a formula's reading is a relation between texts and trees, so is
//! what comes of the rules, and of the bytes as a whole; that bytes have one outcome at most is a law
//! (`book_is_unique`). So each fault comes exactly where the definition gives it, and `NoMemory` alone is free:
//! the definition gives it for no bytes (`fault_is_of_bytes`).
//!
//! The faults of all keys come before that of too many. So reading goes on where the book is full, and a draft
//! then keeps the names alone, without values and formulas, since a rule may still stand at the name of an
//! input. To count the keys first would have needed a second reader for documents of too many. To ask the
//! document's own table for the name would have kept all inputs twice. The text of a rule is read before its
//! name is looked up, so that one look tells what stands there and puts the rule; the name's fault is told first.
//!
//! A file of plain lines is read without a document: the headers of both tables, inputs first, and below them keys of one part
//! with integers and with texts on one line that have no escapes (`line`). Each line goes into the draft as it is read
//! (`direct`). The document's ordered maps, built twice, cost four times as much. The end of a text is looked for in sixteen
//! bytes at once, since a line is mostly its text: byte by byte that was a sixth of all reading. Whatever isn't plain, and each
//! fault of TOML, is left to the document, so that there is one place that tells them. That entries in order are the document's
//! tables is proved of the grammar's own definitions (`proofs/Document`), and the contract is the same for both ways.
//!
//! Only where a line can't be put are there lists of entries, sorted by key (`plain`, `entries`): then the first fault
//! in byte order is to be told, or a key comes twice, and all is read again. A book is a map, so any order of its keys
//! makes it (`proofs/Orders`), and the draft tells which keys come twice. Lists for every file were 40 bytes for each key,
//! written and read once.
#![tactic(auto)]

mod direct;
mod draft;
mod entries;
mod entry;
mod fill;
mod found;
mod inputs;
mod laws;
mod line;
mod names;
mod plain;
mod read;
mod rules;
mod signs;

pub use laws::{book_is_unique, book_some, fault_is_of_bytes};
pub use read::read_rules;
