ghost use Rattle.std.specs.Prelude.{◌≡◌};
ghost use Rattle.carte_value.specs.declared.value.Value.TheVariants.{Empty};
ghost use Rattle.carte_book.specs.Fits.{Fits, Fits-prop};
ghost use Rattle.carte_book.specs.Content.{entries_view};
ghost use Rattle.carte_book.specs.Inputs.{AreListed, AreListed-prop};
ghost use Rattle.carte_book.specs.Known.{Knows, book_with};

use carte_tree::Expr;
use carte_value::{Digest, Kind, Name, Numbering, Seeded, Value};
use indexmap::IndexMap;
use std::alloc::Global;
use std::sync::Arc;

/// The one name of the map in memory. Items stand in the order in which they were added.
pub(crate) type Items = IndexMap<Name, Item, Seeded>;

/// What stands at a name of a book.
#[derive(Debug, Drop)]
pub enum Item {
    Input(Value),
    Rule(Rule),
}

/// A rule. Its formula is shared with those who may run it later, without the book.
#[derive(Debug, Drop)]
pub struct Rule {
    pub(crate) formula: Arc<Expr>,
    /// The digest of its task, once it was worked out to be kept.
    pub(crate) task: Option<Digest>,
}

/// A rule file or a sheet in memory. Its names are of its kind, and its formulas are as reading makes them.
#[derive(Drop)]
pub struct Book {
    pub(crate) alloc: Global,
    pub(crate) kind: Kind,
    pub(crate) items: Items,
    /// The names of all inputs, and maybe others: whoever asks for inputs asks these few first.
    pub(crate) inputs: Numbering,
    /// What each cell of a sheet holds that nothing was put in.
    pub(crate) nothing: Value,
    /// The digest of its rules, once it was asked for.
    pub(crate) known: Option<Digest>,
    /// Of so many rules, or of more, the digest of the task is known.
    pub(crate) known_tasks: usize,
    ghost is_nothing: { nothing ≡ Empty },
    ghost fits: { Fits kind items.entries } by { Fits-prop kind items.entries },
    ghost listed: { AreListed inputs (entries_view items.entries) } by { AreListed-prop inputs (entries_view items.entries) },
    ghost knows: { Knows known (book_with kind items.entries) },
}

/// What a book has at a name.
#[derive(Drop)]
pub enum Looked<'a> {
    Input(&'a Value),
    Rule(&'a Expr),
    None,
}
