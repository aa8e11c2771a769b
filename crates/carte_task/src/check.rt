ghost use Rattle.std.specs.Prelude.{◌≡◌, IfOk, bytes_eq};
ghost use Rattle.carte_effect.specs.Effects.{SameStops};
ghost use Rattle.carte_task.specs.Compared.{Compared};

use crate::{Effect, Halt, Hashed, Reuse};
use carte_value::{Digest, Link, Name, NoMemory, SharedLinks};
use std::alloc::Global;
use std::marker::Model;

/// What a check comes to.
#[derive(Debug, Drop)]
pub enum Verdict {
    /// Each link has the digest that it had, so the earlier end holds.
    Same(Reuse),
    /// The place of the first link that has another.
    Differs(usize),
}

/// Asks for the links of an earlier end in order, and compares digests, until one differs.
#[derive(Debug, Drop)]
pub struct Check {
    key: Name,
    value: Hashed,
    links: SharedLinks,
    at: usize,
}

impl Model for Check {
    ghost use Rattle.carte_task.specs.Checking.{Checking};

    ghost Value = { Checking };

    ghost view = { λ c. record { earlier = record { key = c.key; value = c.value; links = c.links }; at = c.at } };
}

// Whether two digests are the same.
fn is_same(digest: &Digest, other: &Digest) -> bool
    ensures { result ≡ bytes_eq digest.now.0 other.now.0 }
{
    digest.0.as_slice() == other.0.as_slice()
}

// Whether the name of a link still has a value with the link's digest.
fn still<E: Effect>(alloc: Global, link: &Link, effect: &mut E) -> Result<bool, Halt<E::Stop>>
    ensures truth { E.truth effect.new ≡ E.truth effect.old }
    ensures stops { SameStops (E.stops effect.old) (E.stops effect.new) }
    ensures asked { Compared (E.truth effect.old) (E.stops effect.old) (E.log effect.old) (E.log effect.new) link.now result }
{
    match effect.fetch(alloc, &link.name) {
        Ok(value) => Ok(is_same(&link.digest, &value.digest())),
        Err(halt) => Err(halt),
    }
}

impl Check {
    ghost use Rattle.carte_task.specs.Checks.{Checked, Judges, Gives, KeepsEarlier, Stands};

    /// A check of an earlier end, whose links it shares, with nothing compared so far.
    pub fn start(
        alloc: Global,
        key: &Name,
        links: &SharedLinks,
        value: Hashed,
    ) -> Result<Check, NoMemory>
        ensures { IfOk result (λ c. c ≡ record { earlier = record { key = key.now; value = value; links = links.now }; at = 0 }) }
    {
        let key = key.copy(alloc)?;
        let links = links.copy()?;
        Ok(Check {
            key,
            value,
            links,
            at: 0,
        })
    }

    /// Goes on to the verdict, or to a link whose name has no value.
    pub fn drive<E: Effect>(
        &mut self,
        alloc: Global,
        effect: &mut E,
    ) -> Result<Verdict, Halt<E::Stop>>
        ensures truth { E.truth effect.new ≡ E.truth effect.old }
        ensures stops { SameStops (E.stops effect.old) (E.stops effect.new) }
        ensures earlier { KeepsEarlier self.old self.new result }
        ensures stands { IfOk result (Stands self.new) }
        ensures checked { Checked (E.truth effect.old) (E.stops effect.old) (E.log effect.old) (E.log effect.new) self.old self.new result }
        ensures judges { IfOk result (Judges (E.truth effect.old) self.old) }
    {
        self.compare(alloc, effect)
    }

    fn compare<E: Effect>(
        &mut self,
        alloc: Global,
        effect: &mut E,
    ) -> Result<Verdict, Halt<E::Stop>>
        ensures truth { E.truth effect.new ≡ E.truth effect.old }
        ensures stops { SameStops (E.stops effect.old) (E.stops effect.new) }
        ensures earlier { KeepsEarlier self.old self.new result }
        ensures stands { IfOk result (Stands self.new) }
        ensures checked { Checked (E.truth effect.old) (E.stops effect.old) (E.log effect.old) (E.log effect.new) self.old self.new result }
        ensures reuse { IfOk result (Gives self.old) }
    {
        'links: while self.at < self.links.len() {
            let link = &self.links.as_slice()[self.at];
            match still(alloc, link, effect) {
                Ok(true) => self.at += 1,
                Ok(false) => return Ok(Verdict::Differs(self.at)),
                Err(halt) => return Err(halt),
            }
        }
        Ok(Verdict::Same(self.hand_out(alloc)?))
    }

    // The earlier end, which holds.
    fn hand_out(&self, alloc: Global) -> Result<Reuse, NoMemory>
        ensures { IfOk result (λ r. r ≡ self.now.earlier) }
    {
        let key = self.key.copy(alloc)?;
        let value = self.value.copy(alloc)?;
        let links = self.links.copy()?;
        Reuse::new(alloc, key, value, links)
    }
}
