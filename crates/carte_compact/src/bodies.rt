// The live information as bodies of a journal.
ghost use Rattle.std.specs.Prelude.{◌≡◌, ◌<◌, ◌^◌, List, length, IfOk};
ghost use Rattle.carte_codec.specs.Each.{EachFits};
ghost use Rattle.carte_record.specs.Bodies.{IsBody, IsUnmarked};
ghost use Rattle.carte_record.specs.Kept.{kept_view};
ghost use Rattle.carte_record.specs.declared.batch.Batch.{Batch as SomeBatch};
ghost use Rattle.carte_state.specs.Folding.{Makes};
ghost use Rattle.carte_state.specs.Versions.{InTwo};
ghost use Rattle.carte_state.specs.Runs.{AreUnmarked};
ghost use Rattle.carte_compact.specs.Lengths.{AreBodies, AreShort, bodies_length, region_length};
ghost use Rattle.carte_compact.specs.Live.{IsLive};

use crate::batches::live;
use carte_journal::{Bodies, Body};
use carte_record::{Batch, Kept};
use carte_value::NoMemory;
use std::alloc::Global;

/// The most bytes of a body.
const LONGEST: usize = 4294967295;

/// The bodies of the live information, at no places of a file yet: what they make of nothing is what is kept. There is no
/// memory either where a body would be longer than a frame can state.
pub fn live_bodies(alloc: Global, kept: &Kept) -> Result<Bodies, NoMemory>
    ensures live { IfOk result (λ bodies. (Bs : List SomeBatch) × IsLive kept.now Bs × AreBodies Bs bodies) }
    ensures kept { IfOk result (λ bodies. Makes bodies (InTwo (kept_view kept.now))) }
    ensures length { IfOk result (λ bodies. (Bs : List SomeBatch) → IsLive kept.now Bs → bodies_length bodies ≡ region_length Bs) }
    ensures short { IfOk result AreShort }
{
    let batches = live(alloc, kept)?;
    bodies_of(alloc, batches.as_slice())
}

fn bodies_of(alloc: Global, batches: &[Batch]) -> Result<Bodies, NoMemory>
    requires few { length batches.now < 2 ^ 32 }
    requires unmarked { AreUnmarked batches.now }
    ensures bodies { IfOk result (AreBodies batches.now) }
    ensures short { IfOk result AreShort }
{
    let mut bodies = Bodies::new(alloc);
    for batch in batches {
        bodies.push(body_of(alloc, batch)?)?;
    }
    Ok(bodies)
}

fn body_of(alloc: Global, batch: &Batch) -> Result<Body, NoMemory>
    requires { EachFits IsUnmarked batch.now.entries }
    ensures body { IfOk result (λ body. IsBody batch.now body.1) }
    ensures short { IfOk result (λ body. length body.1 < 2 ^ 32) }
{
    let bytes = batch.encode(alloc)?;
    if bytes.len() > LONGEST {
        return Err(NoMemory);
    }
    Body::of(alloc, 0, bytes.as_slice())
}
