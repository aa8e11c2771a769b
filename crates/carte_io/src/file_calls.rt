ghost use Rattle.std.specs.Prelude.{MatchResult, is_ok, length};

use std::fs::{File, Metadata};
use std::io;
use std::os::unix::fs::FileExt;

/// The calls of an open file that a disk makes, each of which is one call of std. The type says what each may be
/// answered, so a disk over such a file can say that its own answers are these.
pub trait FileCalls {
    ghost use Rattle.std.specs.Prelude.{ℕ, List, Bool, Option};
    ghost use Rattle.std.specs.declared.fs.attrs.Metadata.{Metadata as About};

    /// What is known of a file may be answered so, or that there was an error.
    ghost describes: { Option About → Type 0 };

    /// A read at an offset, of so many bytes, may be answered so.
    ghost reads: { ℕ → ℕ → Option (List ℕ) → Type 0 };

    /// A write of a piece at an offset may pass, or not.
    ghost writes: { ℕ → List ℕ → Bool → Type 0 };

    /// A sync may pass, or not.
    ghost syncs: { Bool → Type 0 };

    /// What is known of the file.
    fn about(&self) -> io::Result<Metadata>
        ensures { MatchResult result (λ m. describes (Some m)) (λ _. describes None) };

    /// Fills `into` with the bytes from an offset on.
    fn fill(&self, into: &mut [u8], at: u64) -> io::Result<()>
        ensures { MatchResult result (λ _. reads at (length into.old) (Some into.new)) (λ _. reads at (length into.old) None) };

    /// Puts the piece at an offset.
    fn put(&self, piece: &[u8], at: u64) -> io::Result<()>
        ensures { writes at piece.now (is_ok result) };

    /// Hands all that was written on to the device.
    fn sync(&self) -> io::Result<()>
        ensures { syncs (is_ok result) };
}

// That a real file answers as a disk has to is trusted, so it may answer anything.
impl FileCalls for File {
    ghost describes = { λ _. Unit {0} };

    ghost reads = { λ _ _ _. Unit {0} };

    ghost writes = { λ _ _ _. Unit {0} };

    ghost syncs = { λ _. Unit {0} };

    fn about(&self) -> io::Result<Metadata> {
        self.metadata()
    }

    fn fill(&self, into: &mut [u8], at: u64) -> io::Result<()> {
        self.read_exact_at(into, at)
    }

    fn put(&self, piece: &[u8], at: u64) -> io::Result<()> {
        self.write_all_at(piece, at)
    }

    fn sync(&self) -> io::Result<()> {
        self.sync_all()
    }
}
