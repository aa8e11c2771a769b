//! Tests of the crates that build: the engine with each rebuilder and scheduler, and the orders of static rules.
//!
//! They stand in a crate of their own, on which nothing stands: a crate with tests is proved a second time with them, and it would have
//! to stand on whatever makes its books. A build through the engine calls the marks, the rebuilders, the schedulers with their bench,
//! and the plan of the batch. The tests of each of them alone stand in `tests/slow`; `books` has what all of them make.
#![tactic(auto)]

#[cfg(test)]
mod books;
#[cfg(test)]
mod engine;
#[cfg(test)]
mod topo;
