// What a rewriting makes of roots, and where it puts a region.
ghost use Rattle.std.specs.Prelude.{◌≡◌, ◌+◌, ◌<◌, ◌≤◌, ◌^◌, length};
ghost use Rattle.carte_bank.specs.Turns.{first_roots, other_at, region_place, root_bytes, turned};

use crate::Roots;

impl Roots {
    /// The roots of a first rewriting, at this offset.
    pub fn first(place: u64) -> Roots
        requires { place < 2 ^ 33 }
        ensures { result ≡ first_roots place }
    {
        Roots {
            place,
            second: false,
            both: false,
            generation: 1,
            start: place + 34,
        }
    }

    /// The offset of the one that isn't active.
    pub fn other(&self) -> u64
        requires { self.now.place < 2 ^ 33 }
        ensures { result ≡ other_at self.now }
    {
        if self.second {
            self.place
        } else {
            self.place + 17
        }
    }

    /// The roots behind a rewriting of the bank, whose region is at this offset.
    pub fn turned(&self, start: u64) -> Roots
        requires { self.now.generation + 1 < 2 ^ 64 }
        ensures { result ≡ turned self.now start }
    {
        Roots {
            place: self.place,
            second: !self.second,
            both: true,
            generation: self.generation + 1,
            start,
        }
    }

    /// Where a region of this length goes, in a file whose bank ends at a closed gate byte.
    pub fn region_place(&self, gate: u64, length: u64) -> u64
        requires behind { self.now.place + 34 ≤ self.now.start }
        requires gate { gate < 2 ^ 32 }
        ensures { result ≡ region_place self.now gate length }
    {
        let front = self.place + 34;
        if length <= self.start - front {
            front
        } else {
            gate + 1
        }
    }
}

/// A root behind its gate byte, which is written with one call.
pub fn root_bytes(generation: u64, start: u64) -> [u8; 16]
    ensures { result ≡ root_bytes generation start }
{
    let mut bytes = [0; 16];
    bytes[..8].copy_from_slice(&generation.to_be_bytes());
    bytes[8..].copy_from_slice(&start.to_be_bytes());
    bytes
}
