ghost use Rattle.std.specs.Prelude.{◌≡◌, ◌<◌, ◌++◌, ◌∷◌, [], length, IfOk, OnOk, slice_index_or, ◌+◌};
ghost use Rattle.carte_search.specs.Search.{Meets, Picks, PicksOne, LinksBack, trails, unwound};

use carte_value::{Name, Names, NoMemory};
use std::alloc::Global;
use std::collections::BTreeSet;

/// A name that was met, and the place of the one that it stands behind. A start has none.
#[derive(Drop)]
pub(crate) struct Met {
    pub(crate) name: Name,
    pub(crate) from: Option<usize>,
}

/// The names that weren't met yet, and those that were, in the order of their paths.
#[derive(Drop)]
pub(crate) struct Search {
    pub(crate) unvisited: BTreeSet<Name>,
    pub(crate) met: Vec<Met>,
}

impl Search {
    /// Before anything was met.
    pub(crate) fn over(alloc: Global, unvisited: BTreeSet<Name>) -> Search
        ensures unvisited { result.unvisited ≡ unvisited }
        ensures met { result.met.items ≡ [] }
    {
        Search {
            unvisited,
            met: Vec::new(alloc),
        }
    }

    /// Puts those of the names that are unvisited behind the names met, in byte order.
    pub(crate) fn meet(
        &mut self,
        alloc: Global,
        names: &[Name],
        from: Option<usize>,
    ) -> Result<(), NoMemory>
        ensures { OnOk result (Meets self.old.unvisited self.new.unvisited self.old.met.items self.new.met.items names.now from) }
    {
        let next = self.pick(alloc, names)?;
        for name in next {
            self.push(Met { name, from })?;
        }
        Ok(())
    }

    fn push(&mut self, met: Met) -> Result<(), NoMemory>
        ensures met { OnOk result (self.new.met.items ≡ self.old.met.items ++ met ∷ []) }
        ensures unvisited { self.new.unvisited ≡ self.old.unvisited }
    {
        self.met.push(met)?;
        Ok(())
    }

    /// Takes those of the names that are unvisited.
    fn pick(&mut self, alloc: Global, names: &[Name]) -> Result<BTreeSet<Name>, NoMemory>
        ensures picks { IfOk result (λ next. Picks self.old.unvisited self.new.unvisited next names.now) }
        ensures met { self.new.met ≡ self.old.met }
    {
        let mut next = BTreeSet::new(alloc);
        for name in names {
            self.pick_one(name, &mut next)?;
        }
        Ok(next)
    }

    // Where the name is unvisited, it goes over to the next ones.
    fn pick_one(&mut self, name: &Name, next: &mut BTreeSet<Name>) -> Result<(), NoMemory>
        ensures picks { OnOk result (PicksOne self.old.unvisited self.new.unvisited next.old next.new name.now) }
        ensures met { self.new.met ≡ self.old.met }
    {
        match self.unvisited.take(name) {
            Some(name) => {
                next.insert(name)?;
                Ok(())
            }
            None => Ok(()),
        }
    }

    /// The path to a name that was met, from the start on.
    pub(crate) fn path(&self, alloc: Global, at: usize) -> Result<Names, NoMemory>
        requires within { at < length self.now.met.items }
        requires links { LinksBack self.now.met.items }
        ensures { IfOk result (λ path. path ≡ unwound (slice_index_or (trails self.now.met.items) (at + 1) []) []) }
    {
        reversed(alloc, self.trail(alloc, at)?)
    }

    /// The same back to the start.
    fn trail(&self, alloc: Global, at: usize) -> Result<Vec<Name>, NoMemory>
        requires within { at < length self.now.met.items }
        requires links { LinksBack self.now.met.items }
        ensures { IfOk result (λ names. names.items ≡ slice_index_or (trails self.now.met.items) (at + 1) []) }
    {
        let mut names = Vec::new(alloc);
        let mut next = Some(at);
        'back: while let Some(at) = next {
            let met = &self.met[at];
            names.push(met.name.copy(alloc)?)?;
            next = met.from;
        }
        Ok(names)
    }
}

/// The names from the last to the first.
fn reversed(alloc: Global, mut names: Vec<Name>) -> Result<Names, NoMemory>
    ensures { IfOk result (λ path. path ≡ unwound names.items []) }
{
    let mut path = Names::new(alloc);
    'turns: while let Some(name) = names.pop() {
        path.push(name)?;
    }
    Ok(path)
}
