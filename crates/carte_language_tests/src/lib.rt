//! Tests of the crates of formulas: their grammar, operators and functions, effects, and tasks.
//!
//! They stand in a crate of their own, on which nothing stands: a crate with tests is proved a second time with them, and it would have
//! to stand on whatever its tests read. `effect`, `formula` and `task` have the tests of the crates of those
//! names, through public calls, and `task` those of `carte_functions` too, whose calls a task makes. `numbers` has those of the numbers of names in `carte_value`. The further tests of tests/slow stand outside of the gate.
#![tactic(auto)]

#[cfg(test)]
mod effect;
#[cfg(test)]
mod formula;
#[cfg(test)]
mod numbers;
#[cfg(test)]
mod rows;
#[cfg(test)]
mod shown;
#[cfg(test)]
mod task;
#[cfg(test)]
mod texts;
#[cfg(test)]
mod values;
