//! How batches are spelled in bytes, and read again.

mod batch;
mod deep_trace;
mod entry;
mod lists;
mod start;
mod three;
mod trace;

pub use batch::one_body;
pub use three::one_body_three;
