//! Tests of how data and batches are spelled, of what a state keeps, and of its rewriting.
//!
//! They stand in a crate of their own, on which nothing stands: a crate with tests is proved a second time with them. Each module has
//! the tests of one crate, through its public calls.
#![tactic(auto)]

#[cfg(test)]
mod codec;
#[cfg(test)]
mod record;
#[cfg(test)]
mod rewriting;
#[cfg(test)]
mod state;
