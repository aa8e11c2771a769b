//! A look for tests, over values that stand in a map.

ghost use Rattle.std.specs.Prelude.{◌≡◌, if◌then◌else◌};
ghost use Rattle.carte_value.specs.Once.{answer_in};
ghost use Rattle.carte_effect.specs.Sights.{seen_or, not_done, missing};

use crate::values::value_of;
use carte_effect::{Look, Seen};
use carte_value::{Kind, Name, NoMemory, Value};
use indexmap::IndexMap;
use std::alloc::Global;

#[derive(Drop)]
pub(crate) struct Shown {
    kind: Kind,
    values: IndexMap<Name, Value>,
    // What every other name has, as in a sheet.
    other: Option<Value>,
    // Whether other names will never have a value.
    missing: bool,
}

impl Look for Shown {
    ghost sight = { λ s k. seen_or (answer_in s.values.entries k) (seen_or s.other (if s.missing then missing else not_done)) };

    fn look(&self, name: &Name) -> Seen<'_> {
        if let Some(value) = self.values.get(name) {
            return Seen::Value(value);
        }
        match &self.other {
            Some(value) => Seen::Value(value),
            None => {
                if self.missing {
                    Seen::Missing
                } else {
                    Seen::NotDone(usize::MAX)
                }
            }
        }
    }
}

impl Shown {
    /// A rule file in which the names that aren't given have no value.
    pub(crate) fn rules(alloc: Global, missing: bool) -> Shown {
        Shown {
            kind: Kind::Rules,
            values: IndexMap::new(alloc),
            other: None,
            missing,
        }
    }

    /// A sheet, whose other cells are Empty.
    pub(crate) fn sheet(alloc: Global) -> Shown {
        Shown {
            kind: Kind::Sheet,
            values: IndexMap::new(alloc),
            other: Some(Value::Empty),
            missing: false,
        }
    }

    pub(crate) fn kind(&self) -> Kind {
        self.kind
    }

    /// The key of its formulas: no name that they look up.
    pub(crate) fn key(&self) -> &'static str {
        match self.kind {
            Kind::Rules => "t",
            Kind::Sheet => "ZZ1",
        }
    }

    /// Puts a name and its value, which stands behind a blank in printed form.
    pub(crate) fn put_line(&mut self, alloc: Global, line: &str) -> Result<(), NoMemory> {
        let (text, value) = line.split_once(' ').unwrap_or((line, ""));
        let value = value_of(alloc, value)?;
        self.put(alloc, text, value)
    }

    /// Puts a value at a name, if it is one.
    pub(crate) fn put(&mut self, alloc: Global, text: &str, value: Value) -> Result<(), NoMemory> {
        let Ok(name) = Name::of(alloc, self.kind, text) else {
            return Ok(());
        };
        match self.values.insert(name, value) {
            Ok(_) => Ok(()),
            Err(_) => Err(NoMemory),
        }
    }

    /// Puts each line.
    pub(crate) fn put_lines(&mut self, alloc: Global, lines: &str) -> Result<(), NoMemory> {
        for line in lines.lines() {
            self.put_line(alloc, line)?;
        }
        Ok(())
    }
}
