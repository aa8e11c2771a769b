ghost use Rattle.std.specs.Prelude.{◌≡◌, IfOk};
ghost use Rattle.carte_book.specs.Book.{book_view};
ghost use Rattle.carte_book.specs.Task.{task_now};
ghost use Rattle.carte_sound.specs.Begun.{is_digest};
ghost use Rattle.carte_sound.specs.Held.{are_so};

use carte_book::Book;
use carte_value::{Link, Links, NoMemory};
use std::alloc::Global;

/// Whether each of these names is a rule of the book, whose task has the digest that stands with it.
pub fn are_tasks(alloc: Global, book: &Book, tasks: &Links) -> Result<bool, NoMemory>
    ensures { IfOk result (λ all. all ≡ are_so (task_now (book_view book.now)) tasks.now) }
{
    for task in tasks.as_slice() {
        if !is_task(alloc, book, task)? {
            return Ok(false);
        }
    }
    Ok(true)
}

fn is_task(alloc: Global, book: &Book, task: &Link) -> Result<bool, NoMemory>
    ensures { IfOk result (λ is. is ≡ is_digest (task_now (book_view book.now) task.now.name) task.now.digest) }
{
    match book.task_digest(alloc, &task.name)? {
        Some(digest) => Ok(digest == task.digest),
        None => Ok(false),
    }
}
