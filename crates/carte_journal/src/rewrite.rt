// The steps of a rewriting.
ghost use Rattle.std.specs.Prelude.{◌≡◌, ◌+◌, ◌<◌, ◌≤◌, ◌^◌, ◌∷◌, [], cond, List, None, Option, Some, ℕ, IfOk, OnOk, OnErr};
ghost use Rattle.carte_io.specs.Causes.{HasCause};
ghost use Rattle.carte_io.specs.Disk.{IsSettled, Throughout, did_sync, wrote};
ghost use Rattle.carte_bank.specs.Roots.{generation_of};
ghost use Rattle.carte_bank.specs.Turns.{first_roots, shut, turned};
ghost use Rattle.carte_journal.specs.Frames.{BodyAt};
ghost use Rattle.carte_journal.specs.Ready.{IsPairWritten, IsReadyAt, IsStagedAt, StaysReady, TurnsTo};
ghost use Rattle.carte_journal.specs.Regions.{IsRegionOf, calls_to_turn, gate_of, placed_at, region_end, turned_from};

use crate::Region;
use crate::writes::{close_gate, open_gate, write_through};
use carte_bank::{Roots, root_bytes};
use carte_io::{Disk, Failed};

/// Writes a region, and then has the file lead to it. The roots are those that it has from then on.
pub(crate) fn turn<D: Disk>(disk: &mut D, region: &Region) -> Result<Roots, Failed>
    requires { generation_of region.now.bank + 1 < 2 ^ 64 }
    ensures roots { IfOk result (λ r. r ≡ turned_from region.now.bank region.now.gate region.now.at) }
    ensures ok { D.tells → (limit : ℕ) (bodies : List BodyAt) (new : List (List ℕ)) → IsReadyAt limit region.now.bank region.now.gate bodies (D.story disk.old)
        → IsRegionOf region.now new → region_end region.now ≤ limit
        → OnOk result (IsReadyAt limit (Some (turned_from region.now.bank region.now.gate region.now.at)) (gate_of region.now.at new) (placed_at region.now.at new) (D.story disk.new)) }
    ensures any_moment { D.tells → (limit : ℕ) (bodies : List BodyAt) (new : List (List ℕ)) → IsReadyAt limit region.now.bank region.now.gate bodies (D.story disk.old)
        → IsRegionOf region.now new → region_end region.now ≤ limit
        → Throughout (D.story disk.old) (D.story disk.new) (TurnsTo limit region.now.gate bodies (gate_of region.now.at new) (placed_at region.now.at new)
        ((D.story disk.old).now.passed + calls_to_turn region.now.bank)) }
    ensures calls { D.tells → OnOk result ((D.story disk.new).now.passed ≡ (D.story disk.old).now.passed + calls_to_turn region.now.bank) }
    ensures fewer { D.tells → OnErr result (((D.story disk.old).now.passed ≤ (D.story disk.new).now.passed)
        × ((D.story disk.new).now.passed < (D.story disk.old).now.passed + calls_to_turn region.now.bank)) }
    ensures cause { HasCause (D.faults disk.old) (D.faults disk.new) result }
{
    match region.bank() {
        Some(roots) => turn_bank(disk, roots, region),
        None => turn_list(disk, region),
    }
}

// In a file that has a bank. The active root isn't touched: a crash that tears it would leave no bank.
fn turn_bank<D: Disk>(disk: &mut D, roots: Roots, region: &Region) -> Result<Roots, Failed>
    requires next { roots.generation + 1 < 2 ^ 64 }
    requires low { roots.place < 2 ^ 33 }
    requires bank { region.now.bank ≡ Some roots }
    ensures roots { IfOk result (λ r. r ≡ turned roots region.now.at) }
    ensures ok { D.tells → (limit : ℕ) (bodies : List BodyAt) (new : List (List ℕ)) → IsReadyAt limit (Some roots) region.now.gate bodies (D.story disk.old)
        → IsRegionOf region.now new → region_end region.now ≤ limit
        → OnOk result (IsReadyAt limit (Some (turned roots region.now.at)) (gate_of region.now.at new) (placed_at region.now.at new) (D.story disk.new)) }
    ensures any_moment { D.tells → (limit : ℕ) (bodies : List BodyAt) (new : List (List ℕ)) → IsReadyAt limit (Some roots) region.now.gate bodies (D.story disk.old)
        → IsRegionOf region.now new → region_end region.now ≤ limit
        → Throughout (D.story disk.old) (D.story disk.new) (TurnsTo limit region.now.gate bodies (gate_of region.now.at new) (placed_at region.now.at new)
        ((D.story disk.old).now.passed + cond roots.both 7 5)) }
    ensures calls { D.tells → OnOk result ((D.story disk.new).now.passed ≡ (D.story disk.old).now.passed + cond roots.both 7 5) }
    ensures fewer { D.tells → OnErr result (((D.story disk.old).now.passed ≤ (D.story disk.new).now.passed)
        × ((D.story disk.new).now.passed < (D.story disk.old).now.passed + cond roots.both 7 5)) }
    ensures cause { HasCause (D.faults disk.old) (D.faults disk.new) result }
{
    close_other(disk, roots)?;
    stage(disk, roots, region)?;
    open_gate(disk, roots.other())?;
    Ok(roots.turned(region.at()))
}

// Closes the gate byte of the other root, where it is open: its numbers can be written then without being read.
fn close_other<D: Disk>(disk: &mut D, roots: Roots) -> Result<(), Failed>
    requires { roots.place < 2 ^ 33 }
    ensures ok { D.tells → (limit gate : ℕ) (bodies : List BodyAt) → IsReadyAt limit (Some roots) gate bodies (D.story disk.old)
        → OnOk result (IsReadyAt limit (Some (shut roots)) gate bodies (D.story disk.new)) }
    ensures any_moment { D.tells → (limit gate : ℕ) (bodies : List BodyAt) → IsReadyAt limit (Some roots) gate bodies (D.story disk.old)
        → Throughout (D.story disk.old) (D.story disk.new) (StaysReady limit gate bodies ((D.story disk.old).now.passed + cond roots.both 2 0)) }
    ensures calls { D.tells → OnOk result ((D.story disk.new).now.passed ≡ (D.story disk.old).now.passed + cond roots.both 2 0) }
    ensures fewer { D.tells → OnErr result (((D.story disk.old).now.passed ≤ (D.story disk.new).now.passed)
        × ((D.story disk.new).now.passed < (D.story disk.old).now.passed + cond roots.both 2 0)) }
    ensures cause { HasCause (D.faults disk.old) (D.faults disk.new) result }
{
    if roots.both {
        return close_gate(disk, roots.other());
    }
    Ok(())
}

// Writes the numbers of the other root, which is closed, and the region.
fn stage<D: Disk>(disk: &mut D, roots: Roots, region: &Region) -> Result<(), Failed>
    requires next { roots.generation + 1 < 2 ^ 64 }
    requires low { roots.place < 2 ^ 33 }
    requires bank { region.now.bank ≡ Some roots }
    ensures ok { D.tells → (limit : ℕ) (bodies : List BodyAt) (new : List (List ℕ)) → IsReadyAt limit (Some (shut roots)) region.now.gate bodies (D.story disk.old)
        → IsRegionOf region.now new → region_end region.now ≤ limit
        → OnOk result (IsStagedAt limit roots region.now.gate region.now.at (gate_of region.now.at new) bodies (placed_at region.now.at new) (D.story disk.new)) }
    ensures any_moment { D.tells → (limit : ℕ) (bodies : List BodyAt) (new : List (List ℕ)) → IsReadyAt limit (Some (shut roots)) region.now.gate bodies (D.story disk.old)
        → IsRegionOf region.now new → region_end region.now ≤ limit
        → Throughout (D.story disk.old) (D.story disk.new) (StaysReady limit region.now.gate bodies ((D.story disk.old).now.passed + 3)) }
    ensures calls { D.tells → OnOk result ((D.story disk.new).now.passed ≡ (D.story disk.old).now.passed + 3) }
    ensures fewer { D.tells → OnErr result (((D.story disk.old).now.passed ≤ (D.story disk.new).now.passed) × ((D.story disk.new).now.passed < (D.story disk.old).now.passed + 3)) }
    ensures cause { HasCause (D.faults disk.old) (D.faults disk.new) result }
{
    let root = root_bytes(roots.generation + 1, region.at());
    write_pair(
        disk,
        roots.other() + 1,
        root.as_slice(),
        region.at(),
        region.piece(),
    )
}

// Writes two pieces, and then syncs.
fn write_pair<D: Disk>(
    disk: &mut D,
    at: u64,
    piece: &[u8],
    there: u64,
    other: &[u8],
) -> Result<(), Failed>
    ensures ok { D.tells → OnOk result (D.story disk.new ≡ did_sync (wrote there other.now (wrote at piece.now (D.story disk.old)))) }
    ensures any_moment { D.tells → IsSettled (D.story disk.old).now → IsPairWritten at piece.now there other.now (D.story disk.old) (D.story disk.new) }
    ensures fewer { D.tells → OnErr result (((D.story disk.old).now.passed ≤ (D.story disk.new).now.passed) × ((D.story disk.new).now.passed ≤ (D.story disk.old).now.passed + 2)) }
    ensures cause { HasCause (D.faults disk.old) (D.faults disk.new) result }
{
    disk.write_at(at, piece)?;
    disk.write_at(there, other)?;
    disk.sync()
}

// In a file that has none yet: all of it stands behind one gate byte, as a frame does.
fn turn_list<D: Disk>(disk: &mut D, region: &Region) -> Result<Roots, Failed>
    requires { region.now.bank ≡ None }
    ensures roots { IfOk result (λ r. r ≡ first_roots (region.now.gate + 15)) }
    ensures ok { D.tells → (limit : ℕ) (bodies : List BodyAt) (new : List (List ℕ)) → IsReadyAt limit None region.now.gate bodies (D.story disk.old)
        → IsRegionOf region.now new → region_end region.now ≤ limit
        → OnOk result (IsReadyAt limit (Some (first_roots (region.now.gate + 15))) (gate_of region.now.at new) (placed_at region.now.at new) (D.story disk.new)) }
    ensures any_moment { D.tells → (limit : ℕ) (bodies : List BodyAt) (new : List (List ℕ)) → IsReadyAt limit None region.now.gate bodies (D.story disk.old)
        → IsRegionOf region.now new → region_end region.now ≤ limit
        → Throughout (D.story disk.old) (D.story disk.new) (TurnsTo limit region.now.gate bodies (gate_of region.now.at new) (placed_at region.now.at new)
        ((D.story disk.old).now.passed + 4)) }
    ensures calls { D.tells → OnOk result ((D.story disk.new).now.passed ≡ (D.story disk.old).now.passed + 4) }
    ensures fewer { D.tells → OnErr result (((D.story disk.old).now.passed ≤ (D.story disk.new).now.passed) × ((D.story disk.new).now.passed < (D.story disk.old).now.passed + 4)) }
    ensures cause { HasCause (D.faults disk.old) (D.faults disk.new) result }
{
    write_through(disk, region.gate() + 1, region.piece())?;
    open_gate(disk, region.gate())?;
    Ok(Roots::first(region.gate() + 15))
}
