// Laws of runs, each as the contract of a function that does nothing.
ghost use Rattle.carte_top.specs.Histories.{WholeHistories};
ghost use Rattle.carte_top.specs.Plain.{PlainIsDue};

/// However many runs follow one another over one state, from an empty file on, whatever they are asked and wherever each
/// is cut off by a crash: the file keeps what is sound for the books so far, where their digests are distinct. So the
/// premise under which an outcome speaks of a build holds of every run, and each that ends with status 0 has printed the
/// clean values of its own book.
pub fn whole_histories()
    ensures { WholeHistories }
{}

/// What is due isn't said of no run at all: of a rule file with one input, over an empty state, it is due that all is done,
/// whichever scheduler and rebuilder the words choose.
pub fn plain_run_is_due()
    ensures { PlainIsDue }
{}
