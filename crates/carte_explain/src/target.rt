ghost use Rattle.std.specs.Prelude.{◌≡◌, ◌++◌, ◌∷◌, [], ℕ, List, IfOk, option_map};
ghost use Rattle.carte_book.specs.Book.{Book as SomeBook, book_view};
ghost use Rattle.carte_note.specs.Lists.{finished_of};
ghost use Rattle.carte_note.specs.Right.{has_run};
ghost use Rattle.carte_record.specs.Kept.{kept_view};
ghost use Rattle.carte_explain.specs.Why.{Explains};

use crate::causes::cause;
use crate::{RebuilderKind, Why};
use carte_book::Book;
use carte_effect::Made;
use carte_note::FinishedList;
use carte_rebuild::Work;
use carte_record::Kept;
use carte_value::{Name, NoMemory};
use std::alloc::Global;

/// Why a build that begins with `kept` would run this target, or would not. `work` is what a preview gives for this kept
/// information and this book, with the rebuilder of this kind.
pub fn explain(
    alloc: Global,
    kept: &Kept,
    book: &Book,
    work: &Work,
    rebuilder: RebuilderKind,
    key: &Name,
) -> Result<Why, NoMemory>
    ensures { Explains rebuilder (kept_view kept.now) (book_view book.now) work.now key.now result }
{
    match ran(&work.finished, key) {
        Some(true) => cause(alloc, kept, book, &work.finished, rebuilder, key),
        Some(false) => Ok(Why::Reusable),
        None => Ok(Why::Input),
    }
}

// Whether a finished key ran.
fn ran(finished: &FinishedList, key: &Name) -> Option<bool>
    ensures { result ≡ option_map (λ f. has_run f.made) (finished_of finished.now key.now) }
{
    match finished.find(key) {
        Some(one) => Some(has_run(&one.made)),
        None => None,
    }
}

fn has_run(made: &Made) -> bool
    ensures { result ≡ has_run made.now }
{
    match made {
        Made::Ran(_) => true,
        Made::Reused(_) => false,
    }
}
