use std::marker::Sync;

/// What each part of some work passes before it begins, where the work is cut into parts that several threads do side by
/// side. A program lets all pass; a test may hold parts until others came.
pub trait Gate: Sync {
    /// Part `part` of the work, counted from 0, is about to begin.
    fn enter(&self, part: usize);

    /// Whether work is to have as many parts as there are workers, however little it is worth.
    fn wants_all(&self) -> bool {
        false
    }
}

/// The gate that nothing passes unwillingly.
#[derive(Drop)]
pub struct NoGate;

impl Gate for NoGate {
    fn enter(&self, _part: usize) {}
}
