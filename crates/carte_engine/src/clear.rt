// The batch that empties a state.
ghost use Rattle.std.specs.Prelude.{◌≡◌};
ghost use Rattle.carte_engine.specs.Clearing.{clearing, keeps_nothing};

use carte_record::{Batch, Start};
use carte_state::State;
use std::alloc::Global;

/// An empty batch where nothing is kept, of either version.
pub(crate) fn clearing(alloc: Global, state: &State) -> Batch
    ensures { result ≡ clearing state.now }
{
    let mut batch = Batch::new(alloc, state.kept().hasher());
    if !keeps_nothing(state) {
        batch.start = Start::Cleared;
    }
    batch
}

fn keeps_nothing(state: &State) -> bool
    ensures { result ≡ keeps_nothing state.now }
{
    !state.is_old() && state.kept().is_bare()
}
