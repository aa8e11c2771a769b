ghost use Rattle.std.specs.Prelude.{◌≡◌, ℕ, List, IfOk};
ghost use Rattle.carte_search.specs.Paths.{IsAnswer, Looks};
ghost use Rattle.carte_search.specs.Search.{HasNodes};

use crate::search::Search;
use carte_value::{Name, Names, NoMemory};
use std::alloc::Global;
use std::collections::BTreeSet;

/// A graph of names.
pub trait Graph {
    /// The names behind a name.
    ghost nexts: { Self → List ℕ → List (List ℕ) };

    /// What is looked for.
    ghost is_goal: { Self → List ℕ → Type 0 };

    /// The names behind this one, or `None` where it is a goal.
    fn look(&self, alloc: Global, name: &Name) -> Result<Option<Names>, NoMemory>
        ensures { IfOk result (Looks (nexts self.now) (is_goal self.now) name.now) };
}

/// The shortest path from one of the starts to a goal, both of them included, and of equally short ones the first in byte
/// order, name by name. `None` where there is no path. `nodes` are the names that may be visited: each goal, and each name
/// with names behind it. The one error is want of memory.
pub fn first_path<G: Graph>(
    alloc: Global,
    graph: &G,
    starts: &[Name],
    nodes: BTreeSet<Name>,
) -> Result<Option<Names>, NoMemory>
    requires { HasNodes (G.nexts graph.now) (G.is_goal graph.now) nodes }
    ensures { IfOk result (IsAnswer (G.nexts graph.now) (G.is_goal graph.now) starts.now) }
{
    let mut search = Search::over(alloc, nodes);
    search.meet(alloc, starts, None)?;
    let mut at = 0;
    'names: while at < search.met.len() {
        match graph.look(alloc, &search.met[at].name)? {
            Some(names) => search.meet(alloc, names.as_slice(), Some(at))?,
            None => return Ok(Some(search.path(alloc, at)?)),
        }
        at += 1;
    }
    Ok(None)
}
