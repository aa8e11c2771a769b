// Laws of the definitions, each as the contract of a function that does nothing.
ghost use Rattle.carte_words.specs.Lines.{OneMeaning};

/// A line of a script has one meaning at most.
#[tactic(auto, using(crate::proofs::Meanings::meant_once))]
pub fn one_meaning()
    ensures { OneMeaning }
{}
