ghost use Rattle.std.specs.Prelude.{◌≡◌, ◌+◌, ◌≤◌, ℕ, length, take, drop, IfOk, OnOk, OnErr};
ghost use Rattle.carte_io.specs.Causes.{HasCause};
ghost use Rattle.carte_io.specs.Disk.{CountsUp, FailsToSync, FailsToWrite, IsImage, IsWithin, Story, did_sync, moments, wrote};

use crate::Failed;

/// A file of bytes that a crash may tear. Between two syncs each written range and everything past the old
/// end may hold any bytes after a crash, and the length is any from the synced one to the longest written
/// end; after a sync a crash leaves what a read gives.
pub trait Disk {
    /// The type tells what a read gives and what a crash may leave, and does as the clauses say.
    ghost tells: { Type 0 };

    /// Its moments so far, where it tells them.
    ghost story: { Self → Story };

    /// How often it failed.
    ghost faults: { Self → ℕ };

    /// The number of bytes.
    fn len(&mut self) -> Result<u64, Failed>
        ensures length { tells → IfOk result (λ n. n ≡ length (story self.old).now.reads) }
        ensures same { tells → story self.new ≡ story self.old }
        ensures cause { HasCause (faults self.old) (faults self.new) result };

    /// Fills `into` with the bytes from an offset on. Where the disk tells what it reads, the range has to
    /// lie in the file; where it doesn't, a range that isn't there is a counted failure.
    fn read_at(&mut self, at: u64, into: &mut [u8]) -> Result<(), Failed>
        requires { tells → at + length into.old ≤ length (story self.old).now.reads }
        ensures bytes { tells → OnOk result (into.new ≡ take (length into.old) (drop at (story self.old).now.reads)) }
        ensures same { tells → story self.new ≡ story self.old }
        ensures cause { HasCause (faults self.old) (faults self.new) result };

    /// Puts the piece at an offset, over what is there or past the end; a gap behind the old end is filled
    /// with zeros. After `Failed` the written range may hold any bytes.
    fn write_at(&mut self, at: u64, piece: &[u8]) -> Result<(), Failed>
        ensures ok { tells → OnOk result (story self.new ≡ wrote at piece.now (story self.old)) }
        ensures err { tells → OnErr result (FailsToWrite at (length piece.now) (story self.old) (story self.new)) }
        ensures cause { HasCause (faults self.old) (faults self.new) result };

    /// After it a crash leaves what a read gives.
    fn sync(&mut self) -> Result<(), Failed>
        ensures ok { tells → OnOk result (story self.new ≡ did_sync (story self.old)) }
        ensures err { tells → OnErr result (FailsToSync (story self.old) (story self.new)) }
        ensures cause { HasCause (faults self.old) (faults self.new) result };

    /// A disk as it reads is one of its images.
    ghost is_image: { (disk : Self) → tells → IsImage (story disk).now (story disk).now.reads };

    /// No moment has more writing calls passed than a later one.
    ghost in_order: { (disk : Self) → tells → CountsUp (moments (story disk)) };

    /// Where it lets only so many pass, no more than that have.
    ghost within: { (disk : Self) → tells → IsWithin (story disk).most (story disk).now.passed };
}
