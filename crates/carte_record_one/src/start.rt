use carte_value::Digest;

/// What a batch of version 1 begins with.
#[derive(Clone, Copy, Debug, PartialEq, Eq)]
pub enum StartOne {
    /// What is kept.
    GoOn,
    /// Nothing kept, under rules with this digest.
    Anew(Digest),
    /// Nothing kept, and no rules.
    Cleared,
}
