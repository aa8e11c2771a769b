//! A journal: bodies of bytes that are added to a file one after another, each of them whole or not at all.
//!
//! A file begins with `CARTE01` and a line feed. Behind that stand frames, from the gate byte at offset 8 on: a
//! gate byte, a length of 4 bytes with the highest first, a body of that length, and then the next gate byte. A
//! gate byte of 1 is open, and any other is closed. The bodies of a file are those up to the first closed one.
//!
//! A commit writes length, body and a closed gate byte behind the standing closed one, syncs, writes a 1 over
//! that, and syncs again. Between two syncs a crash may leave any bytes in what was written, so the byte that
//! counts is written alone, once all that it stands for is on the disk. A checksum would do with one sync, but
//! then a body that was torn could pass for a whole one, by chance, and no theorem could rule it out.
//!
//! What a file holds is a function of its bytes, `reading` in `specs/Frames.antt`, which shares nothing with the
//! code: it walks over the bytes, where the code seeks by offsets. A move among the frames leads to a bank, whose
//! frames count in their place: see `carte_bank`. The contract of `commit` says what an image
//! reads as, at each moment. For calls one after another that becomes a chain: see `commit_all`.
//!
//! A rewriting writes other bodies as a region, a bank of its own, and then has the file lead to it by the one byte
//! that counts, as a commit does. The region goes where nothing stands that is still read, so that up to that byte
//! each image has what was there. Writing a new file and renaming it would do without roots, but a disk is one
//! open and locked file here. A region is planned before it is written, so that the rewriting takes no memory.
//!
//! A journal doesn't hold its disk. It would be simpler to use, but a program would have to take it apart for
//! whatever else it does with the disk.
#![tactic(auto)]

mod bank;
mod body;
mod faults;
mod frame;
mod journal;
mod load;
mod many;
mod reads;
mod region;
mod rewrite;
mod writes;

pub use bank::Bank;
pub use body::{Bodies, Body};
pub use faults::{CommitFault, LoadFault};
pub use frame::Frame;
pub use journal::Journal;
pub use many::commit_all;
pub use region::Region;
