//! Rebuilders: how a build tells that the value of a key needs no run.
//!
//! A rebuilder begins a job for a key, which either reuses what is kept or runs the key's task, and says what a finished
//! key brings to the batch of the build. Schedulers are written over `Rebuilder` alone, so each works with each.
//!
//! The form chosen: the trait tells which rebuilder it is (`how`), and which keys are held, which needs are looked into and
//! what a build leaves are functions of that, defined once for all rebuilders. So a rebuilder writes how it begins a job, of
//! which kind it is (`method`), and its laws; the rest is given by its kind. `begun` is the meaning that `Job` lacks: that
//! the job is one of `start` on this kept information, and over which truth it was driven. By two laws a scheduler knows
//! each job from its start to its end. Premises on what is kept stand inside the laws, so no call requires them: over
//! kept information that isn't sound a build still ends, and promises less. A third law has none: whatever a job comes to
//! has the key for which it was begun.
//!
//! One job serves all rebuilders that compare the needs of a key (`Tries`): checks of earlier ends, then the task. Its
//! meaning is one computation, what it still asks for, and a drive leads from what was left to what is left. Until the
//! checks have failed it holds only what the task is made of: most jobs of a build that changes little never run.
//!
//! A finished key gets the rules and the inputs beneath it, where the rebuilder gathers these, from its links alone: what is
//! beneath the rules among them was gathered as these were finished, and a held key links what its trace names, so nothing
//! walks over the book.
//!
//! Turned down:
//! - A meaning of "held" for each rebuilder: what a build leaves would be proved once for each.
//! - `Job::fits` alone: it knows no kept information, so it can't say that exactly what is held is reused.
//! - A trait of its own for the jobs of rebuilders: a law that ranges over a relation that isn't a member is of a higher
//!   universe than a contract may have.
#![tactic(auto)]

mod checks;
mod earlier;
mod gather;
mod laws;
mod made;
mod rebuilder;
mod recipe;
mod store;
mod tasks;
mod tries;
mod work;

pub use checks::Checks;
pub use earlier::checks_of;
pub use laws::driven_right;
pub use made::finish;
pub use rebuilder::Rebuilder;
pub use store::stored;
pub use tasks::are_tasks;
pub use tries::Tries;
pub use work::{PlanFault, Work, WorkEnd};
