ghost use Rattle.std.specs.Prelude.{◌≡◌, ◌≢◌, ◌<◌, ◌≤◌, [], length, is_ok, if◌then◌else◌, IfOk, IfErr};
ghost use Rattle.std.specs.IoError.{error_kind};
ghost use Rattle.std.specs.Io.KnownBytes.{Keeps, WriteAppends};
ghost use Rattle.carte_io.specs.Causes.{HasCause, counted};

use crate::counts::{TRIES, counted_answer, gave_up, one_more};
use crate::{Failed, Sink};
use std::io;
use std::io::{ErrorKind, Write};
use std::marker::Model;

/// One of std's writers as a sink. It tells no bytes. A call that a signal interrupted is repeated. Each other error is
/// a counted failure, and so is a call that takes no byte of a piece that has some. To finish is to flush, which a
/// test alone shows: no clause of std's writers says what a flush does.
#[derive(Drop)]
pub struct WriteSink<W> {
    writer: W,
    faults: u64,
}

impl<W> Model for WriteSink<W> {
    ghost use Rattle.std.specs.Prelude.{ℕ};

    ghost Value = { W × ℕ };

    ghost view = { λ s. (s.writer, s.faults) };
}

impl<W: Write + Drop> WriteSink<W> {
    /// A sink whose bytes the writer takes, no call of which was made.
    pub fn of(writer: W) -> WriteSink<W>
        ensures { result ≡ (writer, 0) }
    {
        WriteSink { writer, faults: 0 }
    }
}

impl<W: Write + Drop> Sink for WriteSink<W> {
    ghost tells = { ⊥ };

    ghost state = { λ s. record { taken = []; handed = 0; faults = s.1 } };

    ghost handed_taken = { λ _ never. absurd never };

    fn write(&mut self, piece: &[u8]) -> Result<usize, Failed>
        ensures bound { IfOk result (λ n. n ≤ length piece.now) }
        ensures some { 0 < length piece.now → IfOk result (λ n. 0 < n) }
        ensures cause { HasCause self.old.1 self.new.1 result }

        // It is one call of the writer that wasn't interrupted.
        ensures taken { WriteAppends (W.contents self.old.0) (W.contents self.new.0) result piece.now }
        ensures counts { self.new.1 ≡ (if is_ok result then self.old.1 else counted self.old.1) }
    {
        match write_again(&mut self.writer, piece) {
            Ok(count) if count > 0 || piece.is_empty() => Ok(count),
            _ => {
                self.faults = one_more(self.faults);
                Err(Failed)
            }
        }
    }

    fn finish(&mut self) -> Result<(), Failed>
        ensures cause { HasCause self.old.1 self.new.1 result }

        // It is one call of the writer that wasn't interrupted.
        ensures kept { Keeps (W.contents self.old.0) (W.contents self.new.0) }
        ensures counts { self.new.1 ≡ (if is_ok result then self.old.1 else counted self.old.1) }
    {
        counted_answer(flush_again(&mut self.writer), &mut self.faults)
    }
}

// One call of a writer, which is repeated while a signal interrupts it.
fn write_again<W: Write>(writer: &mut W, piece: &[u8]) -> io::Result<usize>
    ensures bound { IfOk result (λ n. n ≤ length piece.now) }
    ensures taken { WriteAppends (W.contents writer.old) (W.contents writer.new) result piece.now }
    ensures again { IfErr result (λ e. error_kind e ≢ ErrorKind.Interrupted) }
{
    for _ in 0..TRIES {
        match writer.write(piece) {
            Err(e) if e.kind() == ErrorKind::Interrupted => {}
            answer => return answer,
        }
    }
    Err(gave_up())
}

// One flush of a writer, which is repeated while a signal interrupts it.
fn flush_again<W: Write>(writer: &mut W) -> io::Result<()>
    ensures kept { Keeps (W.contents writer.old) (W.contents writer.new) }
    ensures again { IfErr result (λ e. error_kind e ≢ ErrorKind.Interrupted) }
{
    for _ in 0..TRIES {
        match writer.flush() {
            Err(e) if e.kind() == ErrorKind::Interrupted => {}
            answer => return answer,
        }
    }
    Err(gave_up())
}
