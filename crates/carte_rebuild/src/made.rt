ghost use Rattle.std.specs.Prelude.{◌≡◌, [], IfOk, if◌then◌else◌};
ghost use Rattle.carte_book.specs.Book.{book_view};
ghost use Rattle.carte_rebuild.specs.Finishes.{FinishesRight};
ghost use Rattle.carte_rebuild.specs.Gathering.{beneath_made as beneath};

use crate::Rebuilder;
use crate::gather::{Role, beneath_made};
use carte_book::Book;
use carte_effect::Made;
use carte_note::{Finished, FinishedList};
use carte_value::{Links, NoMemory};
use std::alloc::Global;

/// Puts a made key together with the rules and the inputs beneath it, where the rebuilder gathers these: those beneath its
/// links, each once, where it is first needed. The rules among the links of a key that ran are finished before, and a held
/// key has both in its links.
pub fn finish<R: Rebuilder>(
    alloc: Global,
    rebuilder: &R,
    book: &Book,
    before: &FinishedList,
    made: Made,
) -> Result<Finished, NoMemory>
    ensures made { IfOk result (λ f. f.made ≡ made) }
    ensures right { IfOk result (FinishesRight (R.how rebuilder.now) (book_view book.now) before.now made) }
{
    let gathers = rebuilder.gathers_beneath();
    let tasks = beneath_of(alloc, gathers, Role::Rules, book, before, &made)?;
    let beneath = beneath_of(alloc, gathers, Role::Inputs, book, before, &made)?;
    Ok(Finished {
        made,
        tasks,
        beneath,
    })
}

// What lies beneath a made key, where it is wanted.
fn beneath_of(
    alloc: Global,
    wanted: bool,
    role: Role,
    book: &Book,
    before: &FinishedList,
    made: &Made,
) -> Result<Links, NoMemory>
    ensures { IfOk result (λ links. links ≡ (if wanted then beneath role (book_view book.now) before.now made.now else [])) }
{
    if wanted {
        return beneath_made(alloc, role, book, before, made);
    }
    Ok(Links::new(alloc))
}
