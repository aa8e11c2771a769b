// The roots of a move.
ghost use Rattle.std.specs.Prelude.{◌≡◌, ◌+◌, ◌<◌, ◌≤◌, ◌^◌, length, IfOk, IfSome};
ghost use Rattle.carte_io.specs.Causes.{HasCause};
ghost use Rattle.carte_bank.specs.Found.{IsInside};
ghost use Rattle.carte_bank.specs.Roots.{active_of, greater_of, root_at, roots_of, started};

use crate::Move;
use crate::reads::{read_byte, read_number};
use carte_io::{Disk, Failed};

/// What 17 bytes say as a root.
#[derive(Clone, Copy, Debug)]
pub struct Root {
    pub is_open: bool,
    pub generation: u64,
    /// The offset at which its bank starts.
    pub start: u64,
}

/// The two roots behind a move.
#[derive(Clone, Copy, Debug)]
pub struct Roots {
    /// The offset of the first; the second stands 17 bytes behind it.
    pub place: u64,
    /// Whether the second is the active one.
    pub second: bool,
    /// Whether the gate byte of the other one is open too.
    pub both: bool,
    /// The generation of the active one.
    pub generation: u64,
    /// The offset at which its bank starts.
    pub start: u64,
}

/// The roots of a move, or none where the move has a fault.
pub fn read_roots<D: Disk>(
    disk: &mut D,
    len: u64,
    limit: u64,
    found: Move,
) -> Result<Option<Roots>, Failed>
    requires limit { limit < 2 ^ 32 }
    requires low { found.gate + 15 ≤ limit }
    requires len { D.tells → len ≡ length (D.story disk.old).now.reads }
    ensures roots { D.tells → IfOk result (λ o. o ≡ roots_of limit found (D.story disk.old).now.reads) }
    ensures inside { IfOk result (λ o. IfSome o (λ r. IsInside len limit r)) }
    ensures same { D.tells → D.story disk.new ≡ D.story disk.old }
    ensures cause { HasCause (D.faults disk.old) (D.faults disk.new) result }
{
    let end = found.gate + 49;
    if found.place != found.gate + 15 || end > len || end > limit {
        return Ok(None);
    }
    if read_byte(disk, found.gate + 14)? == 1 {
        return Ok(None);
    }
    let first = read_root(disk, found.place)?;
    let second = read_root(disk, found.place + 17)?;
    let roots = active(found.place, first, second);
    Ok(start_within(len, limit, roots))
}

// The root at an offset.
fn read_root<D: Disk>(disk: &mut D, at: u64) -> Result<Root, Failed>
    requires low { at < 2 ^ 33 }
    requires inside { D.tells → at + 17 ≤ length (D.story disk.old).now.reads }
    ensures root { D.tells → IfOk result (λ r. r ≡ root_at at (D.story disk.old).now.reads) }
    ensures same { D.tells → D.story disk.new ≡ D.story disk.old }
    ensures cause { HasCause (D.faults disk.old) (D.faults disk.new) result }
{
    let gate = read_byte(disk, at)?;
    let generation = read_number(disk, at + 1)?;
    let start = read_number(disk, at + 9)?;
    Ok(Root {
        is_open: gate == 1,
        generation,
        start,
    })
}

// The roots with the one that is active, where one is.
fn active(place: u64, first: Root, second: Root) -> Option<Roots>
    ensures { result ≡ active_of place first second }
{
    match (first.is_open, second.is_open) {
        (true, true) => greater(place, first, second),
        (true, false) => Some(roots_as(place, false, false, first)),
        (false, true) => Some(roots_as(place, true, false, second)),
        (false, false) => None,
    }
}

// Of two open ones that with the greater generation.
fn greater(place: u64, first: Root, second: Root) -> Option<Roots>
    ensures { result ≡ greater_of place first second }
{
    if first.generation == second.generation {
        return None;
    }
    if first.generation < second.generation {
        Some(roots_as(place, true, true, second))
    } else {
        Some(roots_as(place, false, true, first))
    }
}

fn roots_as(place: u64, second: bool, both: bool, root: Root) -> Roots
    ensures { result ≡ record { place = place; second = second; both = both; generation = root.generation; start = root.start } }
{
    Roots {
        place,
        second,
        both,
        generation: root.generation,
        start: root.start,
    }
}

// The roots, where their bank starts behind them, in the file and within the limit.
fn start_within(len: u64, limit: u64, roots: Option<Roots>) -> Option<Roots>
    requires { IfSome roots (λ r. r.place < 2 ^ 33) }
    ensures roots { result ≡ started limit len roots }
    ensures inside { IfSome result (λ r. IsInside len limit r) }
{
    let roots = roots?;
    if roots.place + 34 > roots.start || roots.start >= len || roots.start >= limit {
        return None;
    }
    Some(roots)
}
