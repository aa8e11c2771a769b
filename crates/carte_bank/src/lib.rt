//! Banks: where the bodies of a journal stand once it was rewritten, so that a file doesn't grow without end.
//!
//! A file begins with a list of frames at offset 8. A move, a body of 9 bytes, the first of them 2, ends that list:
//! behind it stand two roots, each a gate byte, a generation and the offset at which a bank of frames starts. The
//! bank of the open root with the greater generation has the bodies of the file.
//!
//! The move goes first: what stands behind it is not read as frames of the list, so that a fault there is the
//! move's. The list in front of a move is dead, and is walked by its gate bytes and lengths alone.
//!
//! Two roots and not one, since a root is 16 bytes that a crash may tear: the one that is written is closed, and
//! its gate byte is opened alone, once the bank that it names is on the disk. The generation says which of two
//! open ones is the later, so that the older needn't be closed in the same moment.
//!
//! This crate has what a file's bytes say of its bank, and what a rewriting makes of its roots; which bodies stand there
//! is the journal's.
#![tactic(auto)]

mod frames;
mod moves;
mod reads;
mod roots;
mod turns;

pub use frames::{FrameAt, read_frame};
pub use moves::{Move, find_move};
pub use reads::{read_byte, read_number};
pub use roots::{Root, Roots, read_roots};
pub use turns::root_bytes;
