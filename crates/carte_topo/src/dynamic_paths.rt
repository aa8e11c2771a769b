ghost use Rattle.std.specs.Prelude.{IfOk};
ghost use Rattle.carte_book.specs.Book.{book_view};
ghost use Rattle.carte_book.specs.Dynamic.{IsDynamicRule};
ghost use Rattle.carte_topo.specs.Dynamic.{IsDynamicAnswer, static_refs};

use carte_book::{Book, Looked};
use carte_search::{Graph, first_path};
use carte_tree::{is_static, refs};
use carte_value::{Name, Names, NoMemory};
use std::alloc::Global;

/// The written references of static rules, and as goals the dynamic rules.
#[derive(Drop)]
struct References<'a> {
    book: &'a Book,
}

impl<'a> Graph for References<'a> {
    ghost nexts = { λ g. static_refs (book_view g.book.now) };

    ghost is_goal = { λ g. IsDynamicRule (book_view g.book.now) };

    fn look(&self, alloc: Global, name: &Name) -> Result<Option<Names>, NoMemory> {
        match self.book.lookup(name) {
            Looked::Rule(formula) if is_static(formula) => {
                Ok(Some(refs(alloc, formula, self.book.hasher())?))
            }
            Looked::Rule(_) => Ok(None),
            _ => Ok(Some(Names::new(alloc))),
        }
    }
}

/// The shortest path of written references that leads from one of the targets through static rules to a dynamic one:
/// its names from the target on, which may itself be the dynamic rule. Of equally short paths it is the first in byte
/// order, name by name. `None` where there is no such path. The one error is want of memory.
pub fn dynamic_path(alloc: Global, book: &Book, targets: &[Name]) -> Result<Option<Names>, NoMemory>
    ensures { IfOk result (IsDynamicAnswer (book_view book.now) targets.now) }
{
    let nodes = book.rule_names(alloc)?;
    first_path(alloc, &References { book }, targets, nodes)
}
