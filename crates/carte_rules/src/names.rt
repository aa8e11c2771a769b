ghost use Rattle.std.specs.Prelude.{◌≡◌, IsTrue, IfOk};
ghost use Rattle.carte_book.specs.declared.fault.BookFault.TheVariants.{BadName, Twice};
ghost use Rattle.carte_name.specs.Names.{is_rule_name};
ghost use Rattle.carte_rules.specs.Drafts.{Holds};
ghost use Rattle.carte_rules.specs.Reading.{Content, name_of, new_name};
ghost use Rattle.carte_rules.specs.Steps.{Gives, IsCause};

use crate::draft::Draft;
use carte_book::{BookFault, KeyText};
use carte_value::{Name, NameFault};
use std::alloc::Global;

/// The name that a key is.
pub(crate) fn name_of(alloc: Global, key: &str) -> Result<Name, BookFault>
    ensures gives { Gives (λ k. k) (name_of key.now) result }
    ensures name { IfOk result (λ k. IsTrue (is_rule_name k)) }
{
    match Name::rule(alloc, key) {
        Ok(name) => Ok(name),
        Err(NameFault::BadName(_)) => Err(bad_name(alloc, key)),
        Err(NameFault::NoMemory) => Err(BookFault::NoMemory),
    }
}

/// The name that the key of a rule is, where no input has it.
pub(crate) fn new_name(alloc: Global, key: &str, draft: &Draft) -> Result<Name, BookFault>
    ensures gives { (m : Content) → Holds draft.now m → Gives (λ k. k) (new_name key.now m) result }
    ensures name { IfOk result (λ k. IsTrue (is_rule_name k)) }
{
    match name_of(alloc, key) {
        Ok(name) => {
            if draft.keys.has(&name) {
                Err(BookFault::Twice(name))
            } else {
                Ok(name)
            }
        }
        Err(fault) => Err(fault),
    }
}

fn bad_name(alloc: Global, key: &str) -> BookFault
    ensures { IsCause result → result ≡ BadName key.now }
{
    match KeyText::of(alloc, key) {
        Ok(text) => BookFault::BadName(text),
        Err(_) => BookFault::NoMemory,
    }
}

/// The fault of a key at whose name something stands.
pub(crate) fn twice(alloc: Global, key: &str) -> BookFault
    ensures { IsTrue (is_rule_name key.now) → IsCause result → result ≡ Twice key.now }
{
    match name_of(alloc, key) {
        Ok(name) => BookFault::Twice(name),
        Err(fault) => fault,
    }
}
