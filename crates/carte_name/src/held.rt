use std::sync::ArcStr;

/// How a name is kept.
#[derive(Drop)]
pub(crate) enum Held {
    /// How many bytes it has, at most 16, the hint, and the bytes, with zeros behind them: the small numbers come first, since
    /// they then stand in the room behind the tag, and a name takes 24 bytes.
    Short(u8, u32, [u8; 16]),
    /// The hint, and the whole of a name of more than 16 bytes, shared by its copies.
    Long(u32, ArcStr),
}
