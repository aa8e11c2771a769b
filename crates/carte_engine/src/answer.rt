use crate::Ran;
use carte_book::Reason;
use carte_effect::Runs;
use carte_note::FinishedList;
use carte_record::Batch;
use carte_value::Values;

/// What a build has made.
#[derive(Drop)]
pub struct Built {
    /// The targets' values, in the order of the targets.
    pub values: Values,
    /// The rules whose tasks ran, in name order.
    pub ran: Ran,
    /// How many tasks were started and didn't end.
    pub given_up: u64,
    /// How many rules were finished without a run.
    pub reused: u64,
    /// The keys that were finished, in that order: what is told of them above is told of these.
    pub finished: FinishedList,
    /// The ledger of the build.
    pub runs: Runs,
}

/// How a build comes out.
#[derive(Drop)]
pub enum Answer {
    Built(Built),
    /// Some target has no value, for this reason; with the ledger of what the build has done all the same.
    Refused(Reason, Runs),
}

/// A build that was worked out and not committed yet.
#[derive(Drop)]
pub struct Plan {
    /// What it brings to the state, in this order: at least one batch, and an empty one where it changes nothing.
    pub batches: Vec<Batch>,
    pub answer: Answer,
}
