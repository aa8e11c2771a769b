ghost use Rattle.std.specs.Prelude.{◌≡◌, None, is_some, IsTrue, IfOk, OnOk, OnErr};
ghost use Rattle.std.specs.FinMap.{empty, get};
ghost use Rattle.carte_name.specs.Kinds.{is_name_of};
ghost use Rattle.carte_book.specs.Book.{book_view, input, content, default_of, hasher_in};
ghost use Rattle.carte_book.specs.Edits.{IsInput, with_item};
ghost use Rattle.carte_book.specs.Looked.{Answers, IsFormula, IsFormulaAt, HasNoOthers, HasRules, AddsRule};
ghost use Rattle.carte_book.specs.Needs.{IsRule};

use crate::book::Items;
use crate::edits::MOST_KEYS;
use crate::inputs::list;
use crate::items::find;
use crate::{Book, Item, Looked};
use carte_tree::Expr;
use carte_value::{Kind, Name, NoMemory, Numbering, Seeded, Value};
use std::alloc::Global;
use std::collections::BTreeSet;
use std::sync::Arc;

impl Book {
    /// The book of this kind without keys, whose map is made with `hasher`. It takes no memory.
    pub fn new(alloc: Global, kind: Kind, hasher: Seeded) -> Book
        ensures kind { (book_view result).kind ≡ kind }
        ensures items { (book_view result).items ≡ empty }
        ensures hasher { hasher_in result ≡ hasher }
    {
        Book {
            alloc,
            kind,
            items: Items::with_hasher(alloc, hasher),
            inputs: Numbering::new(alloc, hasher),
            nothing: Value::Empty,
            known: None,
            known_tasks: 0,
        }
    }

    /// The same, with room for so many keys, or for as many as a book has at most.
    pub fn with_room(
        alloc: Global,
        kind: Kind,
        keys: usize,
        hasher: Seeded,
    ) -> Result<Book, NoMemory>
        ensures kind { IfOk result (λ b. (book_view b).kind ≡ kind) }
        ensures items { IfOk result (λ b. (book_view b).items ≡ empty) }
        ensures hasher { IfOk result (λ b. hasher_in b ≡ hasher) }
    {
        let items = Items::with_capacity_and_hasher(alloc, keys.min(MOST_KEYS as usize), hasher)?;
        Ok(Book {
            alloc,
            kind,
            items,
            inputs: Numbering::new(alloc, hasher),
            nothing: Value::Empty,
            known: None,
            known_tasks: 0,
        })
    }

    /// It takes no memory.
    pub fn kind(&self) -> Kind
        ensures { result ≡ (book_view self.now).kind }
    {
        self.kind
    }

    /// The hash that maps of this book's names are made with. It takes no memory.
    pub fn hasher(&self) -> Seeded
        ensures { result ≡ hasher_in self.now }
    {
        *self.items.hasher()
    }

    /// What stands at a name; in a sheet a cell that the book doesn't hold is an input without content.
    /// A name of the other kind has nothing. It takes no memory.
    pub fn lookup(&self, name: &Name) -> Looked<'_>
        ensures answer { Answers (content (book_view self.now) name.now) result }
        ensures formula { IsFormula (book_view self.now).kind result }
        ensures others { HasNoOthers (book_view self.now) }
    {
        self.lookup_at(name).0
    }

    /// The same, with the place where it stands: who gives the name that as its hint has it looked for there first.
    pub fn lookup_at(&self, name: &Name) -> (Looked<'_>, usize)
        ensures answer { Answers (content (book_view self.now) name.now) result.0 }
        ensures formula { IsFormula (book_view self.now).kind result.0 }
        ensures others { HasNoOthers (book_view self.now) }
    {
        match find(&self.items, name) {
            Some((at, Item::Input(value))) => (Looked::Input(value), at),
            Some((at, Item::Rule(rule))) => (Looked::Rule(&rule.formula), at),
            None => (self.unheld(name), usize::MAX),
        }
    }

    /// The formula of a rule, shared with the book: it takes nothing from the allocator.
    pub fn formula(&self, name: &Name) -> Result<Arc<Expr>, NoMemory>
        requires { IsRule (book_view self.now) name.now }
        ensures { IfOk result (IsFormulaAt (book_view self.now) name.now) }
    {
        match find(&self.items, name) {
            Some((_, Item::Rule(rule))) => Ok(rule.formula.clone()?),
            Some((_, Item::Input(_))) => unreachable!(),
            None => unreachable!(),
        }
    }

    // What a name has that isn't among the keys.
    fn unheld(&self, name: &Name) -> Looked<'_>
        ensures { Answers (default_of (book_view self.now).kind name.now) result }
    {
        match self.kind {
            Kind::Sheet if name.is_cell() => Looked::Input(&self.nothing),
            _ => Looked::None,
        }
    }

    /// The names of all rules.
    pub fn rule_names(&self, alloc: Global) -> Result<BTreeSet<Name>, NoMemory>
        ensures { IfOk result (HasRules (book_view self.now)) }
    {
        let mut names = BTreeSet::new(alloc);
        for (name, item) in &self.items {
            if let Err(refused) = add_rule(alloc, &mut names, name, item) {
                return Err(refused);
            }
        }
        Ok(names)
    }

    pub(crate) fn has(&self, name: &Name) -> bool
        ensures { result ≡ is_some (get (book_view self.now).items name.now) }
    {
        self.items.contains_key(name)
    }

    // What it knows of its rules is dropped, since it isn't looked whether the name is a key.
    pub(crate) fn put(&mut self, name: Name, value: Value) -> Result<(), NoMemory>
        requires name { IsTrue (is_name_of (book_view self.old).kind name) }
        requires input { IsInput (book_view self.old) name }
        ensures ok { OnOk result (book_view self.new ≡ with_item (book_view self.old) name (input value)) }
        ensures absent { OnErr result (get (book_view self.old).items name ≡ None) }
        ensures unchanged { OnErr result (book_view self.new ≡ book_view self.old) }
    {
        if list(&mut self.inputs, &name).is_err() {
            return Err(NoMemory);
        }
        self.known = None;
        self.known_tasks = 0;
        match self.items.insert(name, Item::Input(value)) {
            Ok(_) => Ok(()),
            Err(_) => Err(NoMemory),
        }
    }
}

fn add_rule(
    alloc: Global,
    names: &mut BTreeSet<Name>,
    name: &Name,
    item: &Item,
) -> Result<(), NoMemory>
    ensures { OnOk result (AddsRule names.old names.new name.now item.now) }
{
    match item {
        Item::Input(_) => Ok(()),
        Item::Rule(_) => match name.copy(alloc) {
            Ok(name) => match names.insert(name) {
                Ok(_) => Ok(()),
                Err(_) => Err(NoMemory),
            },
            Err(refused) => Err(refused),
        },
    }
}
