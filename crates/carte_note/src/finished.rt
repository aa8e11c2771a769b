ghost use Rattle.std.specs.Prelude.{◌≡◌};
ghost use Rattle.carte_note.specs.Right.{has_run};
ghost use Rattle.carte_note.specs.Writes.{links_noted};
ghost use Rattle.carte_note.specs.Methods.{how_of};

use crate::Method;
use carte_effect::Made;
use carte_value::Links;

/// A key that a build has finished.
#[derive(Debug, Drop)]
pub struct Finished {
    pub made: Made,
    /// The key and the rules beneath it with the digests of their tasks, in the order in which they are first needed; none
    /// where the rebuilder gathers nothing.
    pub tasks: Links,
    /// The same of the inputs beneath the key and the digests of their values.
    pub beneath: Links,
}

/// Whether a task ran for it.
pub(crate) fn has_run(made: &Made) -> bool
    ensures { result ≡ has_run made.now }
{
    match made {
        Made::Ran(_) => true,
        Made::Reused(_) => false,
    }
}

/// The links of what the key's entry names.
pub(crate) fn links_noted(method: Method, finished: &Finished) -> &Links
    ensures { result.now ≡ links_noted (how_of method) finished.now }
{
    if method.gathers_beneath() {
        &finished.beneath
    } else {
        finished.made.links()
    }
}
