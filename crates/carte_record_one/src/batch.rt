use crate::{EntriesOne, StartOne, TracesOne};
use carte_table::{Seen, Store};
use carte_value::Names;

/// What a build changed of what was kept, as version 1 has it. Where it names a key twice, the later one counts.
#[derive(Drop)]
pub struct BatchOne {
    pub start: StartOne,
    pub values: Store,
    pub seen: Seen,
    /// The keys whose entries are marked stale, before the entries of the batch are put in.
    pub stale: Names,
    pub entries: EntriesOne,
    pub verifying: TracesOne,
    pub constructive: TracesOne,
    pub deep: TracesOne,
    pub chain: Option<Names>,
}
