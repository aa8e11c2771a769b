ghost use Rattle.std.specs.Prelude.{◌≡◌, ◌<◌, ◌≤◌, length, slice_index, slice_range, drop, Err};
ghost use Rattle.carte_lexer.specs.Takes.{ReadsTo, fault_of, MeetsTo, RunMeetsTo};
ghost use Rattle.carte_lexer.specs.Lexer.{start_of, begins, idle, lexed};
ghost use Rattle.carte_lexer.specs.Runs.{RunsTo};

mod runs;
mod starts;
mod token_kinds;

use crate::lexer::runs::run_end;
pub use crate::lexer::starts::start_of;
use crate::lexer::token_kinds::token_of;
use crate::tokens::{Class, Start, Token};
use carte_tree::FormulaFault;
use carte_value::Kind;
use std::alloc::Global;

/// The token that begins at a place, or none where a blank stands there; and where the next one may begin.
fn meet(
    alloc: Global,
    kind: Kind,
    text: &str,
    at: usize,
) -> Result<(Option<Token>, usize), FormulaFault>
    requires { at < length text.now }
    ensures { MeetsTo kind text.now at result }
{
    match start_of(kind, text.as_bytes()[at]) {
        Start::Blank => Ok((None, at + 1)),
        Start::Sign(sign) => Ok((Some(sign.token()), at + 1)),
        Start::Run(class) => {
            let (token, end) = meet_run(alloc, kind, text, at, class)?;
            Ok((Some(token), end))
        }
        Start::Wrong => Err(FormulaFault::BadToken(at)),
    }
}

/// The token that the run is which begins at a place, and where the next one may begin.
#[inline(always)]
pub fn meet_run(
    alloc: Global,
    kind: Kind,
    text: &str,
    at: usize,
    class: Class,
) -> Result<(Token, usize), FormulaFault>
    requires place { at < length text.now }
    requires start { start_of kind (slice_index text.now at) ≡ begins class }
    ensures { RunMeetsTo kind text.now at result }
{
    let (last, end) = run_end(class, text.as_bytes(), at);
    if let Class::Inside = last {
        return Err(FormulaFault::BadToken(at));
    }
    match token_of(alloc, last, &text[at..end])? {
        Some(token) => Ok((token, end)),
        None => Err(FormulaFault::BadToken(at)),
    }
}

/// The fault of a text that has this one before a place: that of the first bad token from there on, where there is one.
#[cold]
pub fn first_fault(
    alloc: Global,
    kind: Kind,
    text: &str,
    from: usize,
    fault: FormulaFault,
) -> FormulaFault
    requires { from ≤ length text.now }
    ensures { ReadsTo (Err result) (Err (fault_of fault (lexed kind idle from (drop from text.now)))) }
{
    let mut at = from;
    while at < text.len() {
        match meet(alloc, kind, text, at) {
            Ok((_, end)) => at = end,
            Err(bad) => return bad,
        }
    }
    fault
}
