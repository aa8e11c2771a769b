// The inputs of a book, which are few mostly: their names stand once more by themselves, so that who asks whether a name is an
// input looks at a small table, which stays near, and not at the whole book.
ghost use Rattle.std.specs.Prelude.{◌≡◌, false, IsTrue, OnErr, OnOk};
ghost use Rattle.carte_book.specs.Book.{book_view, content, item_view};
ghost use Rattle.carte_book.specs.Inputs.{HasAll, IsListed, has_name, is_input};

use crate::{Book, Item, Looked};
use carte_value::{Kind, Name, NoMemory, Numbering};

impl Book {
    /// Whether a name is an input; in a sheet a cell that the book doesn't hold is one. It takes no memory.
    pub fn is_input(&self, name: &Name) -> bool
        ensures { result ≡ is_input (content (book_view self.now) name.now) }
    {
        self.may_be_input(name) && self.finds_input(name)
    }

    fn finds_input(&self, name: &Name) -> bool
        ensures { result ≡ is_input (content (book_view self.now) name.now) }
    {
        match self.lookup(name) {
            Looked::Input(_) => true,
            Looked::Rule(_) => false,
            Looked::None => false,
        }
    }

    // A rule file has no input but those whose names are listed.
    fn may_be_input(&self, name: &Name) -> bool
        ensures { result ≡ false → is_input (content (book_view self.now) name.now) ≡ false }
    {
        match self.kind {
            Kind::Rules => self.inputs.find(name).is_some(),
            Kind::Sheet => true,
        }
    }
}

/// Lists a name. One that is there takes no memory, and after want of memory the list is as before.
pub(crate) fn list(inputs: &mut Numbering, name: &Name) -> Result<(), NoMemory>
    ensures listed { OnOk result (IsTrue (has_name inputs.new name.now)) }
    ensures all { HasAll inputs.new inputs.old }
    ensures lacking { OnErr result (has_name inputs.old name.now ≡ false) }
{
    if inputs.find(name).is_some() {
        return Ok(());
    }
    match inputs.give(name) {
        Ok(_) => Ok(()),
        Err(refused) => Err(refused),
    }
}

/// The same of an item's name, where it is an input.
pub(crate) fn list_item(inputs: &mut Numbering, name: &Name, item: &Item) -> Result<(), NoMemory>
    ensures listed { OnOk result (IsListed inputs.new name.now (item_view item.now)) }
    ensures all { HasAll inputs.new inputs.old }
{
    match item {
        Item::Input(_) => list(inputs, name),
        Item::Rule(_) => Ok(()),
    }
}
