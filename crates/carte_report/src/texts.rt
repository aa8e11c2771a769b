// Every text that a user sees where the status isn't 0.
ghost use Rattle.std.specs.Prelude.{◌≡◌, ◌++◌, codes, IfOk, OnOk, string_bytes};
ghost use Rattle.std.specs.Fmt.{decimal};
ghost use Rattle.carte_report.specs.Texts.{book_fault_text, words_fault_text, arrows, path_text, reason_text, status_text, line};

use crate::Status;
use crate::book_texts::book_fault_text;
use crate::pieces::{after, between, number_after, plain, quoted_after};
use carte_book::{BookFault, Reason};
use carte_value::{Name, Names, NoMemory};
use carte_words::WordsFault;
use std::alloc::Global;

/// The error line of a status.
pub fn error_line(alloc: Global, status: &Status) -> Result<String, NoMemory>
    ensures { IfOk result (λ text. string_bytes text ≡ line (status_text status.now)) }
{
    let text = status_text(alloc, status)?;
    between(alloc, "carte: ", text.as_str(), "\n")
}

/// The line of want of memory, which itself needs none.
pub fn memory_line() -> &'static str
    ensures { result.now ≡ line (codes "out of memory") }
{
    "carte: out of memory\n"
}

fn status_text(alloc: Global, status: &Status) -> Result<String, NoMemory>
    ensures { IfOk result (λ text. string_bytes text ≡ status_text status.now) }
{
    match status {
        Status::Done => Ok(String::new(alloc)),
        Status::BookRefused(fault) => book_refused(alloc, fault),
        Status::Usage(fault) => usage(alloc, fault),
        Status::BuildRefused(reason) => reason_text(alloc, reason),
        Status::ReadFault => plain(alloc, "a read failed"),
        Status::WriteFault => Ok(String::new(alloc)),
        Status::DiskFault => plain(alloc, "the state's device failed"),
        Status::BadState(offset) => number_after(alloc, "bad state at byte ", *offset),
        Status::StateFull(needed, limit) => full_text(alloc, *needed, *limit),
        Status::NoMemory => plain(alloc, "out of memory"),
        Status::ScriptTooLong => plain(alloc, "script longer than 67108864 bytes"),
    }
}

fn book_refused(alloc: Global, fault: &BookFault) -> Result<String, NoMemory>
    ensures { IfOk result (λ text. string_bytes text ≡ codes "book refused: " ++ book_fault_text fault.now) }
{
    let text = book_fault_text(alloc, fault)?;
    after(alloc, "book refused: ", text.as_str())
}

fn usage(alloc: Global, fault: &WordsFault) -> Result<String, NoMemory>
    ensures { IfOk result (λ text. string_bytes text ≡ codes "usage: " ++ words_fault_text fault.now) }
{
    let text = words_fault_text(alloc, fault)?;
    after(alloc, "usage: ", text.as_str())
}

fn words_fault_text(alloc: Global, fault: &WordsFault) -> Result<String, NoMemory>
    ensures { IfOk result (λ text. string_bytes text ≡ words_fault_text fault.now) }
{
    match fault {
        WordsFault::Words => plain(alloc, "the words are no command"),
        WordsFault::NoTarget => plain(alloc, "no target"),
        WordsFault::TargetsNotTaken => plain(alloc, "targets not taken"),
        WordsFault::SeedAndCount => plain(alloc, "generate takes a seed and a count"),
        WordsFault::BadTarget(word) => quoted_after(alloc, "bad target ", word.text()),
        WordsFault::WorkersNeedSuspending => {
            plain(alloc, "workers need the suspending scheduler")
        }
        WordsFault::NoMemory => plain(alloc, "out of memory"),
    }
}

pub(crate) fn reason_text(alloc: Global, reason: &Reason) -> Result<String, NoMemory>
    ensures { IfOk result (λ text. string_bytes text ≡ reason_text reason.now) }
{
    match reason {
        Reason::Cycle(path) => path_after(alloc, "cycle: ", path),
        Reason::Missing(path) => path_after(alloc, "missing: ", path),
        Reason::Dynamic(path) => path_after(alloc, "dynamic: ", path),
    }
}

pub(crate) fn path_after(alloc: Global, front: &str, path: &Names) -> Result<String, NoMemory>
    ensures { IfOk result (λ text. string_bytes text ≡ front.now ++ path_text path.now) }
{
    let mut out = String::from_str(alloc, front)?;
    match path.as_slice() {
        [] => Ok(out),
        [first, rest @ ..] => {
            out.push_str(first.text())?;
            push_arrows(&mut out, rest)?;
            Ok(out)
        }
    }
}

fn push_arrows(out: &mut String, names: &[Name]) -> Result<(), NoMemory>
    ensures { OnOk result (string_bytes out.new ≡ string_bytes out.old ++ arrows names.now) }
{
    for name in names {
        out.push_str(" -> ")?;
        out.push_str(name.text())?;
    }
    Ok(())
}

fn full_text(alloc: Global, needed: u64, limit: u64) -> Result<String, NoMemory>
    ensures { IfOk result (λ text. string_bytes text ≡ codes "state full: " ++ (decimal needed ++ (codes " bytes needed, limit " ++ decimal limit))) }
{
    let needed = needed.to_string(alloc)?;
    let limit = number_after(alloc, " bytes needed, limit ", limit)?;
    between(alloc, "state full: ", needed.as_str(), limit.as_str())
}
