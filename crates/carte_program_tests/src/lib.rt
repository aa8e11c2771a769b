//! Tests of the texts that a user sees, and of whole runs of the program over memory.
//!
//! They stand in a crate of their own, on which nothing stands: a crate with tests is proved a second time with them. Each module has
//! the tests of one crate, through its public calls.
#![tactic(auto)]

#[cfg(test)]
mod report;
#[cfg(test)]
mod top;
