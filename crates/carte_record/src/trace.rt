ghost use Rattle.std.specs.Prelude.{◌≡◌, IfOk};
ghost use Rattle.carte_record.specs.Lookups.{links_eq, trace_eq};

use carte_table::All;
use carte_value::{Digest, Link, Name, NoMemory, Same, SharedLinks};
use std::alloc::Global;

/// A run of a key: the digest of the task that it ran, the digests that its links had, and that of its result. Checks of
/// it, and what they make, share the links.
#[derive(Debug, Drop)]
pub struct Trace {
    pub key: Name,
    pub task: Digest,
    pub links: SharedLinks,
    pub result: Digest,
}

/// A list of at most 2^32 - 1 traces, seen as these traces, in which the traces of a key are looked up at once.
pub type Traces = All<Trace>;

impl Same for Trace {
    fn same(&self, alloc: Global) -> Result<Trace, NoMemory> {
        Ok(Trace {
            key: self.key.copy(alloc)?,
            task: self.task,
            links: self.links.copy()?,
            result: self.result,
        })
    }
}

impl Trace {
    /// Whether another run of a key had the same task and links and came to the same.
    pub fn is_same(&self, other: &Trace) -> bool
        ensures { result ≡ trace_eq self.now other.now }
    {
        self.key == other.key
            && self.task == other.task
            && self.result == other.result
            && are_equal(self.links.as_slice(), other.links.as_slice())
    }
}

pub(crate) fn are_equal(links: &[Link], others: &[Link]) -> bool
    ensures { result ≡ links_eq links.now others.now }
{
    if links.len() != others.len() {
        return false;
    }
    for at in 0..links.len() {
        if links[at].name != others[at].name || links[at].digest != others[at].digest {
            return false;
        }
    }
    true
}
