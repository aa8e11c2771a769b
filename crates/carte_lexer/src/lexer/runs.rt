ghost use Rattle.std.specs.Prelude.{◌≡◌, ◌<◌, ◌+◌, length, slice_range};
ghost use Rattle.carte_lexer.specs.Runs.{RunOk, RunsTo, Keeps};

use crate::lexer::starts::grown;
use crate::tokens::Class;

/// Where the run that begins at a place ends, and as what. The runs that names and numbers are have a loop each.
#[inline(always)]
pub fn run_end(class: Class, bytes: &[u8], from: usize) -> (Class, usize)
    requires place { from < length bytes.now }
    requires known { RunOk class (slice_range bytes.now from (from + 1)) }
    ensures { RunsTo class bytes.now from result.0 result.1 }
{
    match class {
        Class::Word => (class, kept_end(Class::Word, bytes, from)),
        Class::Digits => (class, kept_end(Class::Digits, bytes, from)),
        Class::Letters => (class, kept_end(Class::Letters, bytes, from)),
        Class::Capitals => (class, kept_end(Class::Capitals, bytes, from)),
        _ => changed_end(class, bytes, from),
    }
}

/// Where a run ends that keeps its class.
#[inline(always)]
fn kept_end(class: Class, bytes: &[u8], from: usize) -> usize
    requires place { from < length bytes.now }
    requires known { RunOk class (slice_range bytes.now from (from + 1)) }
    requires keeps { Keeps class }
    ensures { RunsTo class bytes.now from class result }
{
    let mut at = from + 1;
    while at < bytes.len() {
        match grown(class, at - from, bytes[at]) {
            Some(_) => at += 1,
            None => return at,
        }
    }
    at
}

/// Where a run ends, and as what.
fn changed_end(class: Class, bytes: &[u8], from: usize) -> (Class, usize)
    requires place { from < length bytes.now }
    requires known { RunOk class (slice_range bytes.now from (from + 1)) }
    ensures { RunsTo class bytes.now from result.0 result.1 }
{
    let mut last = class;
    let mut at = from + 1;
    while at < bytes.len() {
        match grown(last, at - from, bytes[at]) {
            Some(next) => {
                last = next;
                at += 1;
            }
            None => return (last, at),
        }
    }
    (last, at)
}
