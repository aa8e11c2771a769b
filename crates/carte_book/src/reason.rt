use carte_value::Names;

/// Why a build is refused, as a path of names that begins with a target.
#[derive(Debug, Drop)]
pub enum Reason {
    /// The first target without a clean value; each next name is the one need of the name before that has no
    /// clean value either, and the last name stands in the path before.
    Cycle(Names),
    /// The same, but the last name has neither a rule nor a value.
    Missing(Names),
    /// Only where rules are ordered before any is worked out: each next name is a written reference of the
    /// one before, and the last is the rule whose references can't be told. It is the shortest such path, and
    /// of equally short ones the first in byte order, name by name.
    Dynamic(Names),
}
