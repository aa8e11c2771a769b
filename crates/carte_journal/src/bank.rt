// The bank of a journal, as it is told.

/// Where the frames of a journal stand.
#[derive(Clone, Copy, Debug)]
pub struct Bank {
    /// The offset of the first gate byte.
    pub start: u64,
    /// The offset behind the closed gate byte at which the frames end.
    pub end: u64,
    /// How many frames there are.
    pub frames: u64,
    /// How often the journal was rewritten; 0 where it never was.
    pub generation: u64,
}
