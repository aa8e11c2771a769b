ghost use Rattle.std.specs.Prelude.{◌≡◌};
ghost use Rattle.carte_tree.specs.Functions.{func_name, func_of, arity};
ghost use Rattle.carte_tree.specs.Tree.{takes_ranges, enough_in, room_in};

use crate::Func;

impl Func {
    /// The name in upper case.
    pub fn name(self) -> &'static str
        ensures { result.now ≡ func_name self }
    {
        match self {
            Func::Sum => "SUM",
            Func::Min => "MIN",
            Func::Max => "MAX",
            Func::Count => "COUNT",
            Func::Concat => "CONCAT",
            Func::And => "AND",
            Func::Or => "OR",
            Func::Len => "LEN",
            Func::Upper => "UPPER",
            Func::Lines => "LINES",
            Func::Line => "LINE",
            Func::Not => "NOT",
            Func::If => "IF",
            Func::Pick => "PICK",
            Func::Indirect => "INDIRECT",
            Func::Gather => "GATHER",
        }
    }

    /// The function of this name, where there is one of it. Names are in upper case.
    pub fn named(name: &str) -> Option<Func>
        ensures { result ≡ func_of name.now }
    {
        match name {
            "SUM" => Some(Func::Sum),
            "MIN" => Some(Func::Min),
            "MAX" => Some(Func::Max),
            "COUNT" => Some(Func::Count),
            "CONCAT" => Some(Func::Concat),
            "AND" => Some(Func::And),
            "OR" => Some(Func::Or),
            "LEN" => Some(Func::Len),
            "UPPER" => Some(Func::Upper),
            "LINES" => Some(Func::Lines),
            "LINE" => Some(Func::Line),
            "NOT" => Some(Func::Not),
            "IF" => Some(Func::If),
            "PICK" => Some(Func::Pick),
            "INDIRECT" => Some(Func::Indirect),
            "GATHER" => Some(Func::Gather),
            _ => None,
        }
    }

    /// Whether a range may stand among its arguments.
    pub fn takes_ranges(self) -> bool
        ensures { result ≡ takes_ranges self }
    {
        match self {
            Func::Sum | Func::Min | Func::Max | Func::Count | Func::Concat | Func::And | Func::Or =>
                true,
            _ => false,
        }
    }

    /// Whether so many arguments are enough.
    pub fn is_enough(self, count: usize) -> bool
        ensures { result ≡ enough_in (arity self) count }
    {
        match self {
            Func::Sum | Func::Min | Func::Max | Func::Count | Func::Concat | Func::And | Func::Or =>
                true,
            Func::Line | Func::If => count >= 2,
            Func::Pick => count >= 3,
            _ => count >= 1,
        }
    }

    /// Whether another argument may follow so many.
    pub fn has_room(self, count: usize) -> bool
        ensures { result ≡ room_in (arity self) count }
    {
        match self {
            Func::Sum | Func::Min | Func::Max | Func::Count | Func::Concat | Func::And | Func::Or =>
                true,
            Func::Line => count < 2,
            Func::If | Func::Pick => count < 3,
            _ => count < 1,
        }
    }
}
