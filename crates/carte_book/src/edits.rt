ghost use Rattle.std.specs.Prelude.{◌≡◌, IsTrue};
ghost use Rattle.carte_name.specs.Kinds.{is_name_of};
ghost use Rattle.carte_tree.specs.Code.{tree_of};
ghost use Rattle.carte_tree.specs.Formula.{IsExpr, HasNames};
ghost use Rattle.carte_book.specs.Fits.{FitsItem};
ghost use Rattle.carte_book.specs.Book.{book_view, item_view, input, rule};
ghost use Rattle.carte_book.specs.Edits.{keys_of, IsRefused, Adds, IsInput, IsSettable, Sets};

use crate::inputs::list_item;
use crate::items::put_new;
use crate::{AddFault, Book, Item, Looked, Rule, SetFault};
use carte_tree::Expr;
use carte_value::{Name, Value};
use std::sync::Arc;

/// As many names as a book has at most.
pub(crate) const MOST_KEYS: u64 = 262_144;

impl Book {
    /// How many inputs and rules it holds. It takes no memory.
    pub fn keys(&self) -> u64
        ensures { result ≡ keys_of (book_view self.now) }
    {
        self.items.len() as u64
    }

    /// Puts an input at a name of the book's kind that it hasn't yet. After a fault the book is as before.
    pub fn add_input(&mut self, name: Name, value: Value) -> Result<(), AddFault>
        requires { IsTrue (is_name_of (book_view self.old).kind name) }
        ensures { Adds (book_view self.old) (book_view self.new) name (input value) result }
    {
        self.add(name, Item::Input(value))
    }

    /// Puts a rule at a name of the book's kind that it hasn't yet. After a fault the book is as before.
    pub fn add_rule(&mut self, name: Name, expr: Expr) -> Result<(), AddFault>
        requires name { IsTrue (is_name_of (book_view self.old).kind name) }
        requires formula { IsExpr (tree_of expr) }
        requires names { HasNames (book_view self.old).kind (tree_of expr) }
        ensures { Adds (book_view self.old) (book_view self.new) name (rule (tree_of expr)) result }
    {
        match Arc::new(self.alloc, expr) {
            Ok(formula) => {
                let task = None;
                self.add(name, Item::Rule(Rule { formula, task }))
            }
            Err(_) => Err(self.refusal(&name)),
        }
    }

    // Why a name isn't added for which there is no memory.
    fn refusal(&self, name: &Name) -> AddFault
        ensures { IsRefused (book_view self.now) name.now result }
    {
        if self.has(name) {
            AddFault::Twice
        } else if self.keys() >= MOST_KEYS {
            AddFault::Limit
        } else {
            AddFault::NoMemory
        }
    }

    fn add(&mut self, name: Name, item: Item) -> Result<(), AddFault>
        requires name { IsTrue (is_name_of (book_view self.old).kind name) }
        requires item { FitsItem (book_view self.old).kind item }
        ensures { Adds (book_view self.old) (book_view self.new) name (item_view item) result }
    {
        if self.keys() >= MOST_KEYS {
            return Err(self.refusal(&name));
        }
        if list_item(&mut self.inputs, &name, &item).is_err() {
            return Err(self.refusal(&name));
        }
        self.known = None;
        put_new(&mut self.items, name, item)
    }

    /// Gives an input, or a cell that holds nothing yet, another value. After a fault the book is as before.
    pub fn set(&mut self, name: &Name, value: Value) -> Result<(), SetFault>
        requires { IsTrue (is_name_of (book_view self.old).kind name.now) }
        ensures { Sets (book_view self.old) (book_view self.new) name.now value result }
    {
        match self.lookup(name) {
            Looked::Input(_) => self.put_input(name, value),
            Looked::Rule(_) => Err(SetFault::NotInput),
            Looked::None => Err(SetFault::NoSuchName),
        }
    }

    fn put_input(&mut self, name: &Name, value: Value) -> Result<(), SetFault>
        requires name { IsTrue (is_name_of (book_view self.old).kind name.now) }
        requires input { IsInput (book_view self.old) name.now }
        ensures { Sets (book_view self.old) (book_view self.new) name.now value result }
    {
        if !self.has(name) && self.keys() >= MOST_KEYS {
            return Err(SetFault::Limit);
        }
        // An input is no rule, so what is known of these stays so.
        let (known, known_tasks) = (self.known, self.known_tasks);
        let done = self.put_value(name, value);
        self.known = known;
        self.known_tasks = known_tasks;
        done
    }

    fn put_value(&mut self, name: &Name, value: Value) -> Result<(), SetFault>
        requires name { IsTrue (is_name_of (book_view self.old).kind name.now) }
        requires input { IsSettable (book_view self.old) name.now }
        ensures { Sets (book_view self.old) (book_view self.new) name.now value result }
    {
        match name.copy(self.alloc) {
            Ok(name) => match self.put(name, value) {
                Ok(()) => Ok(()),
                Err(_) => Err(SetFault::NoMemory),
            },
            Err(_) => Err(SetFault::NoMemory),
        }
    }
}
