use crate::KeyText;
use carte_tree::FormulaFault;
use carte_value::Name;
use thiserror::Error;

/// What there is too much of.
#[derive(Clone, Copy, Debug, PartialEq, Eq)]
pub enum Which {
    Bytes,
    Keys,
    Rows,
    Columns,
}

/// Why bytes are no book.
#[derive(Debug, Drop, Error)]
pub enum BookFault {
    /// More than so many of these.
    #[error("more than {1}")]
    Limit(Which, u64),
    /// They are no TOML document, as the crate `toml` defines it.
    #[error("not TOML")]
    NotToml,
    /// A key of the document that is neither the table of the inputs nor that of the rules.
    #[error("bad table")]
    BadTable(KeyText),
    /// A key of a table that is no name.
    #[error("bad name")]
    BadName(KeyText),
    /// What can't stand at this name.
    #[error("bad value")]
    BadValue(Name),
    /// The text at this name is no formula.
    #[error("bad formula: {1}")]
    Formula(Name, FormulaFault),
    /// The name is an input and a rule.
    #[error("name used twice")]
    Twice(Name),
    /// The bytes at this name are no UTF-8.
    #[error("not UTF-8")]
    NotUtf8(Name),
    /// There was no memory.
    #[error("out of memory")]
    NoMemory,
}

/// Why a name isn't added, the first of these in this order. The book is as before.
#[derive(Clone, Copy, Debug, PartialEq, Eq, Error)]
pub enum AddFault {
    /// The book has it.
    #[error("name used twice")]
    Twice,
    /// The book has 262,144 names.
    #[error("more than 262144 names")]
    Limit,
    /// There was no memory.
    #[error("out of memory")]
    NoMemory,
}

/// Why an input isn't set, the first of these in this order. The book is as before.
#[derive(Clone, Copy, Debug, PartialEq, Eq, Error)]
pub enum SetFault {
    /// The name is a rule.
    #[error("no input")]
    NotInput,
    /// The book is a rule file without the name.
    #[error("no such name")]
    NoSuchName,
    /// The book is a sheet of 262,144 names without this one.
    #[error("more than 262144 names")]
    Limit,
    /// There was no memory.
    #[error("out of memory")]
    NoMemory,
}
