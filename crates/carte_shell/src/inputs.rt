// A line that sets an input.
ghost use Rattle.std.specs.Prelude.{◌≡◌, false, IfOk, IsTrue, MatchResult};
ghost use Rattle.carte_name.specs.Kinds.{is_name_of};
ghost use Rattle.carte_book.specs.Book.{book_view};
ghost use Rattle.carte_session.specs.declared.end.StepEnd.TheVariants.{NoMemory as OutOfMemory};
ghost use Rattle.carte_shell.specs.Answers.{SetsInput};
ghost use Rattle.carte_shell.specs.Replies.{said};

use crate::Reply;
use carte_book::{Book, SetFault};
use carte_report::{not_set_line, set_line};
use carte_session::StepEnd;
use carte_value::{Name, Value};
use std::alloc::Global;

// The text of a line that sets is made before, too; a refusal changes nothing.
pub(crate) fn set_input(
    alloc: Global,
    book: &mut Book,
    name: &Name,
    value: Value,
) -> Result<Reply, StepEnd>
    requires { IsTrue (is_name_of (book_view book.old).kind name.now) }
    ensures set { MatchResult result
        (λ reply. SetsInput (book_view book.old) (book_view book.new) name.now value (said reply))
        (λ end. (end ≡ OutOfMemory) × (book_view book.new ≡ book_view book.old)) }
    ensures stays { IfOk result (λ reply. reply.stays ≡ false) }
{
    let done = set_line(alloc, name)?;
    match book.set(name, value) {
        Ok(()) => Ok(Reply::plain(done)),
        Err(SetFault::NoMemory) => Err(StepEnd::NoMemory),
        Err(fault) => Ok(Reply::plain(not_set_line(alloc, name, fault)?)),
    }
}
