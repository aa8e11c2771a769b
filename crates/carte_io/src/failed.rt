use thiserror::Error;

/// A call of a source, a sink or a disk failed, and that object counted it.
#[derive(Clone, Copy, Debug, Error)]
#[error("a call of the outside failed")]
pub struct Failed;
