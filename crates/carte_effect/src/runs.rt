ghost use Rattle.std.specs.Prelude.{◌≡◌, length, is_ok, if◌then◌else◌};
ghost use Rattle.carte_effect.specs.Ledger.{Ledger, no_runs, with_start, with_end, with_later, given_up};

use carte_value::{Name, Names, NoMemory};
use std::alloc::Global;
use std::marker::Model;

/// A ledger of the tasks that were started and of those that ended.
#[derive(Debug, Drop)]
pub struct Runs {
    starts: Names,
    ends: Names,
}

impl Model for Runs {
    ghost use Rattle.carte_effect.specs.Ledger.{Ledger};

    ghost Value = { Ledger };

    ghost view = { λ r. record { starts = r.starts; ends = r.ends } };
}

impl Runs {
    /// The empty ledger. It takes no memory.
    pub fn new(alloc: Global) -> Runs
        ensures { result ≡ no_runs }
    {
        Runs {
            starts: Names::new(alloc),
            ends: Names::new(alloc),
        }
    }

    /// How many starts there were.
    pub fn started(&self) -> u64
        ensures { result ≡ length self.now.starts }
    {
        self.starts.len() as u64
    }

    /// The keys of the tasks that ended, in that order.
    pub fn ended(&self) -> &Names
        ensures { result.now ≡ self.now.ends }
    {
        &self.ends
    }

    /// How many starts have no end. A later ledger may have ends of tasks that an earlier one started, and then it is 0.
    pub fn given_up(&self) -> u64
        ensures { result ≡ given_up self.now }
    {
        self.starts.len().saturating_sub(self.ends.len()) as u64
    }

    /// Puts the starts and the ends of a later ledger behind these.
    pub fn append(&mut self, later: Runs) -> Result<(), NoMemory>
        ensures { self.new ≡ (if is_ok result then with_later self.old later else self.old) }
    {
        let len = self.starts.len();
        self.starts.append(later.starts)?;
        if let Err(refused) = self.ends.append(later.ends) {
            self.starts.truncate(len);
            return Err(refused);
        }
        Ok(())
    }

    /// Counts a start. For those who write tasks and jobs.
    pub fn start(&mut self, alloc: Global, key: &Name) -> Result<(), NoMemory>
        ensures { self.new ≡ (if is_ok result then with_start self.old key.now else self.old) }
    {
        self.starts.push(key.copy(alloc)?)
    }

    /// Counts an end. For those who write tasks and jobs.
    pub fn end(&mut self, alloc: Global, key: &Name) -> Result<(), NoMemory>
        ensures { self.new ≡ (if is_ok result then with_end self.old key.now else self.old) }
    {
        self.ends.push(key.copy(alloc)?)
    }
}
