use carte_value::Name;

/// Where a name stands on a bench.
#[derive(Debug, Drop)]
pub enum Place {
    /// It is no rule that was demanded.
    Unknown,
    /// Its job may be taken.
    Ready,
    /// Its last drive stopped at this name, which isn't done.
    WaitsFor(Name),
    /// Its job was taken and not put back.
    Out,
    /// It has its value.
    Done,
}
