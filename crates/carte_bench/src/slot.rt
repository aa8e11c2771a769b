use carte_effect::Made;
use carte_value::Name;

/// What stands at the name of a rule that was demanded.
#[derive(Drop)]
pub enum Slot<J> {
    /// A job that wasn't driven yet.
    Ready(J),
    /// A job that stopped at a name, which may be done by now.
    Stopped(J, Name),
    /// Its job was taken.
    Out,
    Done(Made),
}
