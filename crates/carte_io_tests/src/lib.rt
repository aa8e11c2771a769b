//! Tests of sources, sinks and disks, of the journal on a disk, and of sessions between a source and a sink.
//!
//! They stand in a crate of their own, on which nothing stands: a crate with tests is proved a second time with them. Each module has
//! the tests of one crate, through its public calls.
#![tactic(auto)]

#[cfg(test)]
mod io;
#[cfg(test)]
mod journal;
#[cfg(test)]
mod session;
