//! How batches of version 1 are read from bytes.

mod batch;
mod entry;
mod start;
mod trace;

pub use batch::one_body_one;
