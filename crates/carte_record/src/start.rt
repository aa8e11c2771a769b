/// What a batch begins with.
#[derive(Clone, Copy, Debug, PartialEq, Eq)]
pub enum Start {
    /// What is kept.
    GoOn,
    /// Nothing kept.
    Cleared,
}
