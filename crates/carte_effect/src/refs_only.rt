ghost use Rattle.std.specs.Prelude.{◌≡◌, [], Some, None, true};

use crate::{Answers, FetchList, Halt};
use carte_value::Names;
use std::alloc::Global;

/// The stop of what never stops.
#[derive(Drop)]
pub enum Never {}

/// Lists the names that it is asked for, and withholds their values: what a task would read, without reading it.
#[derive(Debug, Drop)]
pub struct RefsOnly {
    names: Names,
}

impl RefsOnly {
    pub fn new(alloc: Global) -> RefsOnly
        ensures { result.names ≡ [] }
    {
        RefsOnly {
            names: Names::new(alloc),
        }
    }

    /// The names asked for so far, in order.
    pub fn names(&self) -> &Names
        ensures { result.now ≡ self.now.names }
    {
        &self.names
    }
}

impl FetchList for RefsOnly {
    type Stop = Never;

    ghost truth = { λ s k. None };

    ghost stops = { λ s k stop. Unit {0} };

    ghost log = { λ s. Some s.names };

    ghost withholds = { true };

    fn fetch_list(&mut self, alloc: Global, names: &Names) -> Result<Answers, Halt<Never>> {
        self.names.append(names.copy(alloc)?)?;
        Ok(Answers::Withheld)
    }
}
