ghost use Rattle.std.specs.Prelude.{◌≡◌, IfOk};

use crate::shared::{Record, Shared};
use crate::{Digests, Hashed};
use carte_value::{Links, Name, NoMemory, SharedLinks, Value};
use std::alloc::Global;
use std::marker::Model;

/// The end of a task: its key, its value, and the names that it looked up, in order, with the digests of their values.
#[derive(Debug, Drop)]
pub struct Ended {
    record: Shared,
}

impl Model for Ended {
    ghost use Rattle.carte_effect.specs.Outcomes.{Outcome};

    ghost Value = { Outcome };

    ghost view = { λ e. e.record };
}

impl Ended {
    /// For those who write tasks and jobs. That a task ran is promised by the drive that hands it out, and not by this.
    pub fn new(
        alloc: Global,
        key: Name,
        value: Hashed,
        links: SharedLinks,
    ) -> Result<Ended, NoMemory>
        ensures key { IfOk result (λ made. made.key ≡ key) }
        ensures value { IfOk result (λ made. made.value ≡ value) }
        ensures links { IfOk result (λ made. made.links ≡ links) }
    {
        let record = Shared::of(alloc, Record { key, value, links })?;
        Ok(Ended { record })
    }

    pub fn key(&self) -> &Name
        ensures { result.now ≡ self.now.key }
    {
        &self.record.record().key
    }

    pub fn value(&self) -> &Value
        ensures { result.now ≡ self.now.value }
    {
        self.record.record().value.value()
    }

    pub fn links(&self) -> &Links
        ensures { result.now ≡ self.now.links }
    {
        self.record.record().links.list()
    }
}

/// An earlier end of a task that still holds: its key, its value, and the links that were compared.
#[derive(Debug, Drop)]
pub struct Reuse {
    record: Shared,
}

impl Model for Reuse {
    ghost use Rattle.carte_effect.specs.Outcomes.{Outcome};

    ghost Value = { Outcome };

    ghost view = { λ r. r.record };
}

impl Reuse {
    /// For those who write checks and jobs. That the earlier end holds is promised by the drive that hands it out, and not by this.
    pub fn new(
        alloc: Global,
        key: Name,
        value: Hashed,
        links: SharedLinks,
    ) -> Result<Reuse, NoMemory>
        ensures key { IfOk result (λ made. made.key ≡ key) }
        ensures value { IfOk result (λ made. made.value ≡ value) }
        ensures links { IfOk result (λ made. made.links ≡ links) }
    {
        let record = Shared::of(alloc, Record { key, value, links })?;
        Ok(Reuse { record })
    }
}

/// What a job came to.
#[derive(Debug, Drop)]
pub enum Made {
    /// Its task ran.
    Ran(Ended),
    /// An earlier end of its task was given again.
    Reused(Reuse),
}

impl Made {
    ghost use Rattle.carte_effect.specs.Jobs.{outcome_of};

    pub fn key(&self) -> &Name
        ensures { result.now ≡ (outcome_of self.now).key }
    {
        &self.record().key
    }

    pub fn value(&self) -> &Value
        ensures { result.now ≡ (outcome_of self.now).value }
    {
        self.record().value.value()
    }

    /// The value with its digest.
    pub fn hashed(&self) -> &Hashed
        ensures { result.now ≡ (outcome_of self.now).value }
    {
        &self.record().value
    }

    pub fn links(&self) -> &Links
        ensures { result.now ≡ (outcome_of self.now).links }
    {
        self.record().links.list()
    }

    /// The links, for whoever shares them.
    pub fn shared_links(&self) -> &SharedLinks
        ensures { result.now ≡ (outcome_of self.now).links }
    {
        &self.record().links
    }

    /// Takes the digest of its value, where that wasn't taken yet and no copy was made.
    pub fn hash(&mut self, digests: &mut Digests)
        ensures { self.new ≡ self.old }
    {
        match self {
            Made::Ran(ended) => ended.record.hash(digests),
            Made::Reused(reuse) => reuse.record.hash(digests),
        }
    }

    /// A second one, which shares all of it. There is no memory where as many share it as can be counted.
    pub fn copy(&self) -> Result<Made, NoMemory>
        ensures { IfOk result (λ made. made ≡ self.now) }
    {
        Ok(match self {
            Made::Ran(ended) => Made::Ran(Ended {
                record: ended.record.copy()?,
            }),
            Made::Reused(reuse) => Made::Reused(Reuse {
                record: reuse.record.copy()?,
            }),
        })
    }

    fn record(&self) -> &Record
        ensures { result.now ≡ outcome_of self.now }
    {
        match self {
            Made::Ran(ended) => ended.record.record(),
            Made::Reused(reuse) => reuse.record.record(),
        }
    }
}
