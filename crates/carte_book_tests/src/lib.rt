//! Tests of values, of books, and of what reads books.
//!
//! They stand in a crate of their own, on which nothing stands: a crate with tests is proved a second time with them, and it would have
//! to stand on whatever its tests read. Each module has the tests of one crate, through its public calls; `texts` has what several of
//! them print. The further tests of tests/slow stand outside of the gate.
#![tactic(auto)]

#[cfg(test)]
mod book;
#[cfg(test)]
mod rows;
#[cfg(test)]
mod rules;
#[cfg(test)]
mod sheet;
#[cfg(test)]
mod texts;
#[cfg(test)]
mod value;
