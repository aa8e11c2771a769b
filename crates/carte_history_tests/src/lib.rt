//! Tests of runs one after another that are cut off, or of which a device fails.
//!
//! Each asks for what the next run answers: a state that a stop, a fault or foreign bytes left must give the right values, or
//! be refused. They stand in a crate of their own, on which nothing stands. Each module has a table, of which the runs are made by
//! `history`, or over devices that fail at a call.
#![tactic(auto)]

#[cfg(test)]
mod faults;
#[cfg(test)]
mod foreign;
#[cfg(test)]
mod pieces;
#[cfg(test)]
mod runs;
#[cfg(test)]
mod stops;
