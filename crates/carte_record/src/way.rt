/// The three kinds of traces.
#[derive(Clone, Copy, Debug, PartialEq, Eq)]
pub enum Way {
    /// Links of a key's needs; the result is that of the key's entry.
    Verifying,
    /// Links of a key's needs; the result is taken from the store.
    Constructive,
    /// The rules beneath a key with their tasks, and links of the inputs beneath it; the result is taken from the store.
    Deep,
}
