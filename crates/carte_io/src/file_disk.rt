ghost use Rattle.std.specs.Prelude.{◌≡◌, is_ok, if◌then◌else◌, length, MatchResult};
ghost use Rattle.carte_io.specs.Causes.{HasCause, counted};
ghost use Rattle.carte_io.specs.Disk.{untold};
ghost use Rattle.carte_io.specs.Files.{IsLength, IsNoLength};

use crate::counts::{counted_answer, one_more};
use crate::{Disk, Failed, FileCalls};
use std::marker::Model;

/// A file as a disk. It tells nothing, for no proof can say what a file holds: that a real file keeps to the
/// disk's clauses is trusted. Each answer is that of one call of the file. Each error is a counted failure, and so is
/// the length of what isn't a regular file: a device has none that stays.
#[derive(Drop)]
pub struct FileDisk<F> {
    file: F,
    faults: u64,
}

impl<F> Model for FileDisk<F> {
    ghost use Rattle.std.specs.Prelude.{ℕ};

    ghost Value = { ℕ };

    ghost view = { λ d. d.faults };
}

impl<F: FileCalls + Drop> FileDisk<F> {
    /// A disk whose bytes are those of the file, which has to be open for reading and writing.
    pub fn of(file: F) -> FileDisk<F>
        ensures { result ≡ 0 }
    {
        FileDisk { file, faults: 0 }
    }
}

impl<F: FileCalls + Drop> Disk for FileDisk<F> {
    ghost tells = { ⊥ };

    ghost story = { λ _. untold };

    ghost faults = { λ d. d };

    ghost is_image = { λ _ never. absurd never };

    ghost in_order = { λ _ never. absurd never };

    ghost within = { λ _ never. absurd never };

    fn len(&mut self) -> Result<u64, Failed>
        ensures cause { HasCause self.old self.new result }
        ensures counts { self.new ≡ (if is_ok result then self.old else counted self.old) }
        ensures answer { MatchResult result (IsLength F.describes) (λ _. IsNoLength F.describes) }
    {
        let about = counted_answer(self.file.about(), &mut self.faults)?;
        if !about.is_file() {
            self.faults = one_more(self.faults);
            return Err(Failed);
        }
        Ok(about.len())
    }

    fn read_at(&mut self, at: u64, into: &mut [u8]) -> Result<(), Failed>
        ensures cause { HasCause self.old self.new result }
        ensures counts { self.new ≡ (if is_ok result then self.old else counted self.old) }
        ensures answer { MatchResult result
            (λ _. F.reads at (length into.old) (Some into.new))
            (λ _. F.reads at (length into.old) None) }
    {
        counted_answer(self.file.fill(into, at), &mut self.faults)
    }

    fn write_at(&mut self, at: u64, piece: &[u8]) -> Result<(), Failed>
        ensures cause { HasCause self.old self.new result }
        ensures counts { self.new ≡ (if is_ok result then self.old else counted self.old) }
        ensures answer { F.writes at piece.now (is_ok result) }
    {
        counted_answer(self.file.put(piece, at), &mut self.faults)
    }

    fn sync(&mut self) -> Result<(), Failed>
        ensures cause { HasCause self.old self.new result }
        ensures counts { self.new ≡ (if is_ok result then self.old else counted self.old) }
        ensures answer { F.syncs (is_ok result) }
    {
        counted_answer(self.file.sync(), &mut self.faults)
    }
}
