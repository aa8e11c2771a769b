// Books in the making.
ghost use Rattle.std.specs.Prelude.{◌≡◌, ◌↔◌, ◌<◌, ◌≤◌, None, false, is_some, length, IsTrue, IfOk, IfErr};
ghost use Rattle.std.specs.FinMap.{empty, get, entries};
ghost use Rattle.carte_name.specs.declared.kind.Kind.TheVariants.{Rules, Sheet};
ghost use Rattle.carte_name.specs.Kinds.{is_name_of};
ghost use Rattle.carte_tree.specs.Code.{tree_of};
ghost use Rattle.carte_tree.specs.Formula.{IsExpr, HasNames};
ghost use Rattle.carte_book.specs.Book.{Item, input, rule};
ghost use Rattle.carte_book.specs.Drafts.{Content, kind_of, items_of, Holds, IsNew, Takes, Becomes};
ghost use Rattle.carte_book.specs.declared.fault.BookFault.TheVariants.{NoMemory as BookNoMemory};

use crate::edits::MOST_KEYS;
use crate::{AddFault, Book, BookFault, Which};
use carte_tree::Expr;
use carte_value::{Kind, Name, Seeded, Value};
use std::alloc::Global;
use std::collections::BTreeSet;

/// A book as far as it is read. The faults of all keys come before that of too many, so it takes keys beyond those of a
/// book too. Of these a rule file's are kept by their names alone, since a rule may still stand at the name of an input. Of
/// a sheet's it is only noted that there are some: each field has a place of its own, so no cell can come twice.
#[derive(Drop)]
pub struct Draft {
    pub(crate) book: Book,
    pub(crate) beyond: BTreeSet<Name>,
    pub(crate) is_over: bool,
}

impl Draft {
    /// A draft of this kind without keys, with room for so many, or for as many as a book has at most.
    pub fn new(alloc: Global, kind: Kind, keys: usize, hasher: Seeded) -> Result<Draft, BookFault>
        ensures kind { IfOk result (λ d. kind_of d ≡ kind) }
        ensures holds { IfOk result (λ d. Holds d empty) }
        ensures fault { IfErr result (λ fault. fault ≡ BookNoMemory) }
    {
        match Book::with_room(alloc, kind, keys, hasher) {
            Ok(book) => Ok(Draft {
                book,
                beyond: BTreeSet::new(alloc),
                is_over: false,
            }),
            Err(_) => Err(BookFault::NoMemory),
        }
    }

    /// Whether something stands at a name of a rule file. It takes no memory.
    pub fn has(&self, name: &Name) -> bool
        requires { kind_of self.now ≡ Rules }
        ensures { (m : Content) → Holds self.now m → is_some (get m name.now) ≡ result }
    {
        self.book.has(name) || self.beyond.contains(name)
    }

    /// Puts an input at a name of the draft's kind, where nothing stands there; in a sheet nothing does.
    /// After a fault nothing is known of the draft.
    pub fn add_input(&mut self, name: Name, value: Value) -> Result<(), AddFault>
        requires { IsTrue (is_name_of (kind_of self.old) name) }
        ensures kind { kind_of self.new ≡ kind_of self.old }
        ensures takes { (m : Content) → Holds self.old m → IsNew (kind_of self.old) m name → Takes name (input value) m self.new result }
    {
        if self.is_full() {
            return self.add_beyond(name);
        }
        self.book.add_input(name, value)
    }

    /// Puts a rule at a name of the draft's kind, where nothing stands there; in a sheet nothing does.
    /// After a fault nothing is known of the draft.
    pub fn add_rule(&mut self, name: Name, expr: Expr) -> Result<(), AddFault>
        requires name { IsTrue (is_name_of (kind_of self.old) name) }
        requires formula { IsExpr (tree_of expr) }
        requires names { HasNames (kind_of self.old) (tree_of expr) }
        ensures kind { kind_of self.new ≡ kind_of self.old }
        ensures takes { (m : Content) → Holds self.old m → IsNew (kind_of self.old) m name → Takes name (rule (tree_of expr)) m self.new result }
    {
        if self.is_full() {
            return self.add_beyond(name);
        }
        self.book.add_rule(name, expr)
    }

    fn is_full(&self) -> bool
        ensures full { IsTrue result ↔ (262144 ≤ length (entries (items_of self.now))) }
        ensures room { result ≡ false → length (entries (items_of self.now)) < 262144 }
    {
        self.book.keys() >= MOST_KEYS
    }

    // Takes a key for which the book has no room.
    fn add_beyond(&mut self, name: Name) -> Result<(), AddFault>
        requires { 262144 ≤ length (entries (items_of self.old)) }
        ensures kind { kind_of self.new ≡ kind_of self.old }
        ensures takes { (m : Content) (x : Item) → Holds self.old m → IsNew (kind_of self.old) m name → Takes name x m self.new result }
    {
        match self.book.kind() {
            Kind::Rules => self.keep_name(name),
            Kind::Sheet => self.note_name(name),
        }
    }

    // Keeps its name, where nothing stands there.
    fn keep_name(&mut self, name: Name) -> Result<(), AddFault>
        requires full { 262144 ≤ length (entries (items_of self.old)) }
        requires rules { kind_of self.old ≡ Rules }
        ensures kind { kind_of self.new ≡ kind_of self.old }
        ensures takes { (m : Content) (x : Item) → Holds self.old m → Takes name x m self.new result }
    {
        if self.has(&name) {
            return Err(AddFault::Twice);
        }
        self.keep_new(name)
    }

    fn keep_new(&mut self, name: Name) -> Result<(), AddFault>
        requires full { 262144 ≤ length (entries (items_of self.old)) }
        requires rules { kind_of self.old ≡ Rules }
        ensures kind { kind_of self.new ≡ kind_of self.old }
        ensures takes { (m : Content) (x : Item) → Holds self.old m → get m name ≡ None → Takes name x m self.new result }
    {
        self.is_over = true;
        match self.beyond.insert(name) {
            Ok(_) => Ok(()),
            Err(_) => Err(AddFault::NoMemory),
        }
    }

    // Notes that there is one. It can't fail, and answers as its neighbour does.
    fn note_name(&mut self, name: Name) -> Result<(), AddFault>
        requires full { 262144 ≤ length (entries (items_of self.old)) }
        requires sheet { kind_of self.old ≡ Sheet }
        ensures kind { kind_of self.new ≡ kind_of self.old }
        ensures takes { (m : Content) (x : Item) → Holds self.old m → get m name ≡ None → Takes name x m self.new result }
    {
        self.is_over = true;
        Ok(())
    }

    /// The book, where it could take all keys: else the fault is `Limit` of keys. It takes no memory.
    pub fn finish(self) -> Result<Book, BookFault>
        ensures { (m : Content) → Holds self m → Becomes (kind_of self) m result }
    {
        if self.is_over {
            Err(BookFault::Limit(Which::Keys, MOST_KEYS))
        } else {
            Ok(self.book)
        }
    }
}
