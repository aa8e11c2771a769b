// The reply to a line that asks why.
ghost use Rattle.std.specs.Prelude.{◌≡◌, ℕ, List, IfOk, OnOk, map, string_bytes};
ghost use Rattle.carte_book.specs.Book.{book_view};
ghost use Rattle.carte_explain.specs.declared.why.Why.{Why as SomeWhy};
ghost use Rattle.carte_report.specs.Lines.{why_line, why_lines};
ghost use Rattle.carte_record.specs.Kept.{kept_view};
ghost use Rattle.carte_state.specs.States.{any_in};
ghost use Rattle.carte_engine.specs.Versions.{kept_for};
ghost use Rattle.carte_shell.specs.Chosen.{how_of};
ghost use Rattle.carte_shell.specs.Explained.{Explained, Tells, TellsEach, TellsRefusal};
ghost use Rattle.carte_shell.specs.Replies.{said};

use crate::Reply;
use crate::chosen::{kind_of, preview};
use carte_book::Book;
use carte_engine::Engine;
use carte_explain::{RebuilderKind, explain};
use carte_rebuild::{PlanFault, Work};
use carte_record::Kept;
use carte_report::why_line;
use carte_value::{Name, Names, NoMemory};
use carte_words::Rebuilder4;
use std::alloc::Global;

/// A line for each target, why a build by the rebuilder would run it, or would not; or why a target has no value. Nothing is
/// changed, and no call of a disk is made. A build is foreseen whose keys wait for what they need.
pub(crate) fn explanation(
    alloc: Global,
    rebuilder: Rebuilder4,
    engine: &mut Engine,
    book: &Book,
    targets: &Names,
) -> Result<Reply, NoMemory>
    ensures kept { engine.new ≡ engine.old }
    ensures told { IfOk result (λ reply. Explained (how_of rebuilder) (any_in engine.old) (book_view book.now) targets.now (said reply)) }
{
    match preview(alloc, rebuilder, engine, book, targets) {
        Ok(work) => {
            let text = found_lines(alloc, engine, book, &work, kind_of(rebuilder), targets)?;
            Ok(Reply::plain(text))
        }
        Err(fault) => refusal(alloc, fault),
    }
}

// Over what a build would find: what is kept, as it is, and of version 1 what it becomes.
fn found_lines(
    alloc: Global,
    engine: &Engine,
    book: &Book,
    work: &Work,
    kind: RebuilderKind,
    targets: &Names,
) -> Result<String, NoMemory>
    ensures { IfOk result (λ text. TellsEach kind (kept_for (any_in engine.now) (book_view book.now)) (book_view book.now) work.now targets.now (string_bytes text)) }
{
    match engine.raised(alloc, book)? {
        Some(kept) => why_lines(alloc, &kept, book, work, kind, targets),
        None => why_lines(alloc, engine.kept(), book, work, kind, targets),
    }
}

fn refusal(alloc: Global, fault: PlanFault) -> Result<Reply, NoMemory>
    ensures { IfOk result (λ reply. TellsRefusal fault (said reply)) }
{
    match fault {
        PlanFault::Refused(reason) => Reply::refusal(alloc, reason),
        PlanFault::NoMemory => Err(NoMemory),
    }
}

fn why_lines(
    alloc: Global,
    kept: &Kept,
    book: &Book,
    work: &Work,
    kind: RebuilderKind,
    targets: &Names,
) -> Result<String, NoMemory>
    ensures { IfOk result (λ text. TellsEach kind (kept_view kept.now) (book_view book.now) work.now targets.now (string_bytes text)) }
{
    let mut text = String::new(alloc);
    for key in targets.as_slice() {
        let line = line_of(alloc, kept, book, work, kind, key)?;
        text.push_str(line.as_str())?;
    }
    Ok(text)
}

fn line_of(
    alloc: Global,
    kept: &Kept,
    book: &Book,
    work: &Work,
    kind: RebuilderKind,
    key: &Name,
) -> Result<String, NoMemory>
    ensures { IfOk result (λ text. (y : SomeWhy) × Tells kind (kept_view kept.now) (book_view book.now) work.now key.now y × (string_bytes text ≡ why_line key.now y)) }
{
    let why = explain(alloc, kept, book, work, kind, key)?;
    why_line(alloc, key, &why)
}
