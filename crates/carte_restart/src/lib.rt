//! The restarting scheduler: a rule that asks for a rule without a value is given up, and begun anew once that one has a
//! value.
//!
//! It needs no machine that can wait: of a job that stopped nothing stays but the name of its stop. The price is starts in
//! vain, so it begins with the order in which rules were finished last: those that the targets led to then, in the order of
//! the kept chain, and the targets behind them. Where that order and the needs that entries tell of are still right,
//! nothing is given up. What a build has finished goes before the old chain.
//!
//! The list has no places that move. What stands before its first unfinished rule is a path of names, newest first, of
//! which each waits for the one before it; a rule that was reached that way is passed over when the list comes to it. So
//! the loop is the suspending one but for one line: where a job stops, a new one of its key takes its place, and waits for
//! the same name. A key is given up at most once for each rule that it needs.
//!
//! What stands, and what is known of values, is said and kept by `carte_progress`. Here the ledger joins them: for each key
//! there are names that it has waited for, each once, and starts without an end are no more than these. They aren't kept
//! anywhere: a key has a turn only where all of them are done, and a stop is at a name that isn't.
//!
//! The schedule is told turn by turn (`EndsByTurns`), so what each turn keeps is known at the end without a word in the
//! loops: over whatever is kept, what is done is finished under its own key. So a build that succeeds has finished each
//! target that isn't an input.
//!
//! Turned down: a list in which names are moved forward, which would be a second order beside the path; a new job at the
//! next turn, in place of at the stop, since machines would be kept for nothing and a turn would have to know whether it is
//! the first; and a set of names waited for, which would say in memory what the proof knows.
#![tactic(auto)]

mod building;
mod chains;
mod first;
mod laws;
mod turns;

pub use building::build;
pub use laws::starts_in_vain_in_all;
