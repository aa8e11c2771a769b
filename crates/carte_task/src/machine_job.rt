ghost use Rattle.std.specs.Prelude.{◌≡◌, true};

use crate::{Effect, Halt, Job, Machine, Made, Runs};
use carte_value::Name;
use std::alloc::Global;

/// A machine is the job that always runs.
impl Job for Machine {
    ghost use Rattle.carte_task.specs.Machines.{state_of};
    ghost use Rattle.carte_task.specs.MachineJobs.{MachineGives, FitsMachine, machine_keyed_on};
    ghost use Rattle.carte_task.specs.Fitting.{fits_on as machine_fits_on};

    ghost name = { λ m. (state_of m).key };

    ghost started = { λ m. true };

    ghost gives = { λ m t a step n. MachineGives (state_of m) t a step (state_of n) };

    ghost fits = { λ m t k v needs asks. FitsMachine (state_of m) t k v needs asks };

    ghost keyed = { λ m k. (state_of m).key ≡ k };

    ghost keyed_on = { λ p t k a step q. machine_keyed_on state_of p q t k a step };

    ghost fits_on = { λ p t part k v needs asks a step q. machine_fits_on state_of p q t part k v needs asks a step };

    fn key(&self) -> &Name {
        self.task_key()
    }

    fn drive<E: Effect>(
        &mut self,
        alloc: Global,
        effect: &mut E,
        runs: &mut Runs,
    ) -> Result<Made, Halt<E::Stop>> {
        match Machine::drive(self, alloc, effect, runs) {
            Ok(ended) => Ok(Made::Ran(ended)),
            Err(halt) => Err(halt),
        }
    }
}
