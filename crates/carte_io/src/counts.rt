// Counts of calls and of failures.
ghost use Rattle.std.specs.Prelude.{◌≡◌, ◌≢◌, MatchResult, Err, is_ok, if◌then◌else◌};
ghost use Rattle.std.specs.IoError.{error_kind};
ghost use Rattle.carte_io.specs.Causes.{counted, HasCause};
ghost use Rattle.carte_io.specs.Memory.{is_failing};

use crate::Failed;
use std::io;
use std::io::ErrorKind;

// How often a call is repeated that a signal interrupts: each loop needs an end, and no run uses these up.
pub(crate) const TRIES: u64 = u64::MAX;

/// One more, at most the last value of a count.
pub(crate) fn one_more(count: u64) -> u64
    ensures { result ≡ counted count }
{
    count.saturating_add(1)
}

/// Whether the call after so many is one of those that fail.
pub(crate) fn is_next_failing(failing: &[u64], calls: u64) -> bool
    ensures { result ≡ is_failing failing.now calls }
{
    failing.contains(&one_more(calls))
}

/// Counts an error, and keeps nothing else of it.
pub(crate) fn counted_answer<T>(answer: io::Result<T>, faults: &mut u64) -> Result<T, Failed>
    ensures cases { MatchResult answer
        (λ x. (result ≡ Ok x) × (faults.new ≡ faults.old))
        (λ _. (result ≡ Err (record {})) × (faults.new ≡ counted faults.old)) }
    ensures counts { faults.new ≡ (if is_ok result then faults.old else counted faults.old) }
    ensures cause { HasCause faults.old faults.new result }
{
    match answer {
        Ok(x) => Ok(x),
        Err(_) => {
            *faults = one_more(*faults);
            Err(Failed)
        }
    }
}

/// The error of a call that was interrupted each time.
pub(crate) fn gave_up() -> io::Error
    ensures { error_kind result ≢ ErrorKind.Interrupted }
{
    io::Error::from(ErrorKind::TimedOut)
}
