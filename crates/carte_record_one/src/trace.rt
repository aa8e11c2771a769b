use carte_value::{Digest, Items, Name, SharedLinks};

/// A run of a key, as version 1 kept it: the digests that its links had, and that of its result.
#[derive(Debug, Drop)]
pub struct TraceOne {
    pub key: Name,
    pub links: SharedLinks,
    pub result: Digest,
}

/// At most 2^32 - 1 traces.
pub type TracesOne = Items<TraceOne>;
