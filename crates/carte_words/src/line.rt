use carte_value::{Name, Names, Value};

/// What a line of a script asks for.
#[derive(Debug, Drop)]
pub enum Line {
    /// To give an input another value.
    Set(Name, Value),
    /// To build one or more keys.
    Build(Names),
    /// To explain one or more keys.
    Explain(Names),
    /// To empty the state.
    Clean,
    /// Nothing: it has no words, or is a comment.
    Nothing,
}
