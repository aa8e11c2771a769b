//! The laws of jobs as the contract of a function of no use but this, since those of another trait's type can't be named.

ghost use Rattle.carte_wave.specs.Laws.{FitsOn, KeyedOn};

use carte_effect::Job;

pub(crate) fn job_laws<J: Job>()
    ensures fits { FitsOn J.fits J.gives }
    ensures keyed { KeyedOn J.keyed J.gives }
{}
