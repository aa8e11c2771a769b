ghost use Rattle.std.specs.Prelude.{◌≡◌, ◌≢◌, ◌≤◌, length, is_ok, if◌then◌else◌, IfOk, IfErr, MatchResult};
ghost use Rattle.std.specs.IoError.{error_kind};
ghost use Rattle.std.specs.Io.KnownBytes.{ReadConsumes};
ghost use Rattle.carte_io.specs.Causes.{HasCause, counted};
ghost use Rattle.carte_io.specs.Streams.{unread};

use crate::counts::{TRIES, counted_answer, gave_up, one_more};
use crate::{Failed, Source};
use std::io;
use std::io::{ErrorKind, Read};
use std::marker::Model;

/// One of std's readers as a source. It tells no bytes. A call that a signal interrupted is repeated, and each other
/// error is a counted failure.
#[derive(Drop)]
pub struct ReadSource<R> {
    reader: R,
    last: usize,
    reads: u64,
    faults: u64,
}

impl<R> Model for ReadSource<R> {
    ghost use Rattle.std.specs.Prelude.{[]};
    ghost use Rattle.carte_io.specs.Streams.{SourceState};

    ghost Value = { R × SourceState };

    ghost view = { λ s. (s.reader, record { left = []; faults = s.faults; last = s.last; reads = s.reads }) };
}

impl<R: Read + Drop> ReadSource<R> {
    /// A source whose bytes the reader gives, no call of which was made.
    pub fn of(reader: R) -> ReadSource<R>
        ensures { result ≡ (reader, unread) }
    {
        ReadSource {
            reader,
            last: 0,
            reads: 0,
            faults: 0,
        }
    }
}

impl<R: Read + Drop> Source for ReadSource<R> {
    ghost tells = { ⊥ };

    ghost state = { λ s. s.1 };

    fn read(&mut self, into: &mut [u8]) -> Result<usize, Failed>
        ensures bound { IfOk result (λ n. n ≤ length into.old) }
        ensures last { MatchResult result (λ n. self.new.1.last ≡ n) (λ _. self.new.1.last ≡ self.old.1.last) }
        ensures reads { self.new.1.reads ≡ counted self.old.1.reads }
        ensures cause { HasCause self.old.1.faults self.new.1.faults result }

        // It is one call of the reader that wasn't interrupted.
        ensures moved { ReadConsumes (R.remaining self.old.0) (R.remaining self.new.0) result into.new }
        ensures counts { self.new.1.faults ≡ (if is_ok result then self.old.1.faults else counted self.old.1.faults) }
    {
        self.reads = one_more(self.reads);
        let count = counted_answer(read_again(&mut self.reader, into), &mut self.faults)?;
        self.last = count;
        Ok(count)
    }
}

// One call of a reader, which is repeated while a signal interrupts it.
fn read_again<R: Read>(reader: &mut R, into: &mut [u8]) -> io::Result<usize>
    ensures bound { IfOk result (λ n. n ≤ length into.old) }
    ensures moved { ReadConsumes (R.remaining reader.old) (R.remaining reader.new) result into.new }
    ensures again { IfErr result (λ e. error_kind e ≢ ErrorKind.Interrupted) }
{
    for _ in 0..TRIES {
        match reader.read(into) {
            Err(e) if e.kind() == ErrorKind::Interrupted => {}
            answer => return answer,
        }
    }
    Err(gave_up())
}
