ghost use Rattle.std.specs.Prelude.{◌≡◌, ℕ, [], IsErr};
ghost use Rattle.carte_io.specs.Causes.{HasCause, counted};
ghost use Rattle.carte_io.specs.Disk.{untold};

use crate::counts::one_more;
use crate::{Disk, Failed, Source};
use std::marker::Model;

/// What isn't there: each call fails, and is counted.
#[derive(Drop)]
pub struct Absent {
    faults: u64,
}

impl Model for Absent {
    ghost Value = { ℕ };

    ghost view = { λ a. a.faults };
}

impl Absent {
    /// What isn't there, no call of which was made.
    pub fn of() -> Absent
        ensures { result ≡ 0 }
    {
        Absent { faults: 0 }
    }
}

impl Source for Absent {
    ghost tells = { ⊥ };

    ghost state = { λ a. record { left = []; faults = a; last = 0; reads = a } };

    fn read(&mut self, into: &mut [u8]) -> Result<usize, Failed>
        ensures cause { HasCause self.old self.new result }
        ensures fails { IsErr result }
        ensures counts { self.new ≡ counted self.old }
        ensures same { into.new ≡ into.old }
    {
        self.faults = one_more(self.faults);
        Err(Failed)
    }
}

impl Disk for Absent {
    ghost tells = { ⊥ };

    ghost story = { λ _. untold };

    ghost faults = { λ a. a };

    ghost is_image = { λ _ never. absurd never };

    ghost in_order = { λ _ never. absurd never };

    ghost within = { λ _ never. absurd never };

    fn len(&mut self) -> Result<u64, Failed>
        ensures cause { HasCause self.old self.new result }
        ensures fails { IsErr result }
        ensures counts { self.new ≡ counted self.old }
    {
        self.faults = one_more(self.faults);
        Err(Failed)
    }

    fn read_at(&mut self, _at: u64, into: &mut [u8]) -> Result<(), Failed>
        ensures cause { HasCause self.old self.new result }
        ensures fails { IsErr result }
        ensures counts { self.new ≡ counted self.old }
        ensures same { into.new ≡ into.old }
    {
        self.faults = one_more(self.faults);
        Err(Failed)
    }

    fn write_at(&mut self, _at: u64, _piece: &[u8]) -> Result<(), Failed>
        ensures cause { HasCause self.old self.new result }
        ensures fails { IsErr result }
        ensures counts { self.new ≡ counted self.old }
    {
        self.faults = one_more(self.faults);
        Err(Failed)
    }

    fn sync(&mut self) -> Result<(), Failed>
        ensures cause { HasCause self.old self.new result }
        ensures fails { IsErr result }
        ensures counts { self.new ≡ counted self.old }
    {
        self.faults = one_more(self.faults);
        Err(Failed)
    }
}
