//! The wave scheduler: the keys that can go on are driven side by side, on several threads, over what is done by then.
//!
//! The targets are demanded. Then, wave after wave, each key that can go on is driven once, over the values that were done as
//! the wave began; what was made is finished in name order, and each rule at which a key stopped is demanded. The build ends
//! where no key can go on. That is a schedule of its own (`IsByWaves`), in which the number of workers doesn't occur: values,
//! the order of finished keys and the ledger are the same for each, and what is known of a build in progress is kept by it.
//!
//! A wave's jobs are cut into neighbouring parts, of which each is driven by a thread of its own, job after job, over a bench
//! that doesn't change meanwhile. Jobs are moved into the parts and back, and outcomes and ledger stand in the order of the
//! jobs: what a wave comes to is what one thread makes of it, job by job. Nothing else is shared, so there is no lock, and
//! nothing waits but for the end of the parts. A fork costs as much as fifty cheap jobs, so a part has that many at least,
//! unless the gate asks for as many parts as there are workers. What the gate is told can't be said by a contract: tests show
//! that parts overlap.
//!
//! Beside the bench stands a line: the keys that can go on, and for each rule those that wait for it. It is proved to be
//! complete, so no wave looks through the bench. While jobs are out, the proof sees the bench as it would be were they back:
//! putting back is one step of the schedule after another, though the jobs were driven before the first. So what holds of each
//! step holds of a build: over whatever is kept, what is done is finished under its own key, and a build that succeeds has
//! finished each target that is a rule.
//!
//! Turned down: a pool of threads that take jobs from a queue, which would need a lock, and outcomes in the order in which
//! they come; halving the list again and again, which says no more than parts and needs a closure with clauses at each step;
//! one loop with the suspending scheduler, which goes to the depth first.
#![tactic(auto)]

mod building;
mod front;
mod laws;
mod parts;
mod running;
mod settle;
mod wave;
mod waves;

pub use building::build;
pub use carte_io::{Gate, NoGate};
pub use running::run_wave;
pub use wave::{Driven, Jobs, Wave};
