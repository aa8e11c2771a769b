// What the words choose for all builds of a run.
ghost use Rattle.std.specs.Prelude.{◌≡◌};
ghost use Rattle.carte_top.specs.Chosen.{choices_of};

use carte_shell::Choices;
use carte_words::Words;

pub(crate) fn choices_of(asked: &Words) -> Choices
    ensures { result ≡ choices_of asked.now }
{
    Choices {
        scheduler: asked.scheduler,
        rebuilder: asked.rebuilder,
        workers: asked.workers,
        list: asked.list,
    }
}
