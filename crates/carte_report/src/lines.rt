// The replies to the lines of a session, and the lines of an explanation.
ghost use Rattle.std.specs.Prelude.{◌≡◌, ◌++◌, codes, IfOk, string_bytes};
ghost use Rattle.carte_report.specs.Lines.{cleaned_line, difference_text, hex_text, not_set_line, refused_line, set_fault_text, set_line, stray_line, why_line, why_text};

use crate::pieces::{after, between, number_after, plain};
use crate::texts::{path_after, reason_text};
use carte_book::{Reason, SetFault};
use carte_explain::Why;
use carte_value::{Digest, Name, NoMemory};
use std::alloc::Global;

/// The reply to a line that set an input.
pub fn set_line(alloc: Global, name: &Name) -> Result<String, NoMemory>
    ensures { IfOk result (λ text. string_bytes text ≡ set_line name.now) }
{
    between(alloc, "set ", name.text(), "\n")
}

/// The reply to a line that would set what can't be set.
pub fn not_set_line(alloc: Global, name: &Name, fault: SetFault) -> Result<String, NoMemory>
    ensures { IfOk result (λ text. string_bytes text ≡ not_set_line name.now fault) }
{
    let text = set_fault_text(alloc, name, fault)?;
    between(alloc, "not set: ", text.as_str(), "\n")
}

fn set_fault_text(alloc: Global, name: &Name, fault: SetFault) -> Result<String, NoMemory>
    ensures { IfOk result (λ text. string_bytes text ≡ set_fault_text name.now fault) }
{
    match fault {
        SetFault::NotInput => after(alloc, name.text(), " is a rule"),
        SetFault::NoSuchName => after(alloc, name.text(), " is unknown"),
        SetFault::Limit => plain(alloc, "more than 262144 keys"),
        SetFault::NoMemory => plain(alloc, "out of memory"),
    }
}

/// The reply to a line whose build, or explanation, is refused.
pub fn refused_line(alloc: Global, reason: &Reason) -> Result<String, NoMemory>
    ensures { IfOk result (λ text. string_bytes text ≡ refused_line reason.now) }
{
    let text = reason_text(alloc, reason)?;
    between(alloc, "refused: ", text.as_str(), "\n")
}

/// The reply to a line that asks for nothing that there is. Lines are counted from 1.
pub fn stray_line(alloc: Global, number: usize) -> Result<String, NoMemory>
    ensures { IfOk result (λ text. string_bytes text ≡ stray_line number) }
{
    let number = number_after(alloc, "line ", number as u64)?;
    after(alloc, number.as_str(), ": not understood\n")
}

/// The reply to a line that cleared the state.
pub fn cleaned_line(alloc: Global) -> Result<String, NoMemory>
    ensures { IfOk result (λ text. string_bytes text ≡ cleaned_line) }
{
    plain(alloc, "cleaned\n")
}

/// Why a key would run, or would not.
pub fn why_line(alloc: Global, key: &Name, why: &Why) -> Result<String, NoMemory>
    ensures { IfOk result (λ text. string_bytes text ≡ why_line key.now why.now) }
{
    let text = why_text(alloc, why)?;
    between(alloc, key.text(), text.as_str(), "\n")
}

fn why_text(alloc: Global, why: &Why) -> Result<String, NoMemory>
    ensures { IfOk result (λ text. string_bytes text ≡ why_text why.now) }
{
    match why {
        Why::Input => plain(alloc, " is an input"),
        Why::Reusable => plain(alloc, " reusable"),
        Why::NoTrace => plain(alloc, " runs: no record"),
        Why::RuleChanged => plain(alloc, " runs: rule changed"),
        Why::FirstDifference { name, old, new } => difference_text(alloc, name, old, new),
        Why::StoredDiffers { .. } => plain(alloc, " runs: stored value differs"),
        Why::NoEntry => plain(alloc, " runs: no entry"),
        Why::Stale => plain(alloc, " runs: entry marked stale"),
        Why::Shallow => plain(alloc, " runs: entry is shallow"),
        Why::DirtyInput(path) => path_after(alloc, " runs: input changed: ", path),
        Why::DirtyRule(path) => path_after(alloc, " runs: rule changed: ", path),
    }
}

fn difference_text(
    alloc: Global,
    name: &Name,
    old: &Digest,
    new: &Digest,
) -> Result<String, NoMemory>
    ensures { IfOk result (λ text. string_bytes text ≡ difference_text name.now old.now new.now) }
{
    let old = hex_text(alloc, old)?;
    let new = hex_text(alloc, new)?;
    let mut out = between(alloc, " runs: ", name.text(), " was ")?;
    out.push_str(old.as_str())?;
    out.push_str(", is ")?;
    out.push_str(new.as_str())?;
    Ok(out)
}

fn hex_text(alloc: Global, digest: &Digest) -> Result<String, NoMemory>
    ensures { IfOk result (λ text. string_bytes text ≡ hex_text digest.now) }
{
    match hex::encode(alloc, digest.0) {
        Ok(text) => Ok(text),
        Err(_) => Err(NoMemory),
    }
}
