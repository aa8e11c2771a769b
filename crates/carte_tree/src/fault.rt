ghost use Rattle.std.specs.Prelude.{◌≡◌};
ghost use Rattle.carte_tree.specs.declared.fault.FormulaFault.TheVariants.{NoMemory as OutOfMemory};

use carte_value::NoMemory;
use std::alloc::AllocFailed;
use thiserror::Error;

/// Why a text isn't read as a formula. Places are offsets in bytes. Of several faults the first in this order is told:
/// `TooLong`, `BadToken`, the earlier of `BadSyntax` and `TooDeep`, `TooWide`.
#[derive(Debug, PartialEq, Eq, Drop, Error)]
pub enum FormulaFault {
    /// A word, number or text that breaks its rules, or a byte that begins none.
    #[error("bad token at {0}")]
    BadToken(usize),
    /// The first token with which no formula begins, or the text's length where it ends too early.
    #[error("bad syntax at {0}")]
    BadSyntax(usize),
    /// The first opening bracket or unary sign round which 64 groups, calls and unary signs stand.
    #[error("too deep at {0}")]
    TooDeep(usize),
    /// More than 4,096 bytes; with the text's length.
    #[error("longer than 4096 bytes")]
    TooLong(usize),
    /// The first cell of the range with which all ranges have more than 65,536 cells.
    #[error("too many cells at {0}")]
    TooWide(usize),
    /// There was no memory.
    #[error("out of memory")]
    NoMemory,
}

impl From<NoMemory> for FormulaFault {
    ghost from_gives = { λ _ e. e ≡ OutOfMemory };

    fn from(_: NoMemory) -> FormulaFault {
        FormulaFault::NoMemory
    }
}

impl<T: Drop> From<AllocFailed<T>> for FormulaFault {
    ghost from_gives = { λ _ e. e ≡ OutOfMemory };

    fn from(_: AllocFailed<T>) -> FormulaFault {
        FormulaFault::NoMemory
    }
}
