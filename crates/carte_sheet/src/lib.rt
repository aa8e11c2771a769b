//! Sheets: CSV texts of cells, read into books.
//!
//! Which records a text has, and which fields, is a definition of the crate `csv`; which book they are, or the first
//! fault why they are none, is ours: it goes by the records in order, and by the fields of each. Since the reading of a
//! formula and that of a number are relations, so is what comes of a field, and of the bytes as a whole; that bytes
//! have one outcome, and one at most, are laws (`sheet_some`, `sheet_is_unique`). So each fault comes exactly where
//! the definition gives it, and `NoMemory` alone is free: the definition gives it for no bytes (`fault_is_of_bytes`).
//!
//! Records are read one after the other, and none is kept: a text of 16 megabytes may have millions. The faults of all
//! fields come before that of too many keys. So reading goes on where the book is full, and the draft then notes no more
//! than that there are further keys. No key of a sheet can come twice, since each field has a place of its own: the
//! content so far has cells in front of that place alone (`IsBefore`). So the names beyond the book need not be kept.
//! Room is made at first for as many cells as the text has fields, so that the map of a large sheet isn't moved as it grows.
//!
//! Rows are counted by the records that `csv` gives. To count lines would have needed a reader of our own.
#![tactic(auto)]

mod cell;
mod draft;
mod fill;
mod laws;
mod read;
mod rows;

pub use laws::{fault_is_of_bytes, sheet_is_unique, sheet_some};
pub use read::read_sheet;
