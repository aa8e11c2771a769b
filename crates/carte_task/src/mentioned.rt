//! The names in instructions, each once.

ghost use Rattle.std.specs.Prelude.{◌≡◌, IfOk, OnOk};
ghost use Rattle.carte_value.specs.Asks.{firsts};
ghost use Rattle.carte_value.specs.Firsts.{seen_all};
ghost use Rattle.carte_task.specs.Mentions.{mentioned_by, mentions_in};

use crate::code::Instr;
use carte_value::{Names, NoMemory, Numbering, Seeded};
use std::alloc::Global;

/// The names in instructions, each once, in the order of their first places.
pub(crate) fn names_in(alloc: Global, code: &[Instr], hasher: Seeded) -> Result<Names, NoMemory>
    ensures { IfOk result (λ ks. ks ≡ firsts (mentions_in code.now)) }
{
    let mut seen = Numbering::new(alloc, hasher);
    for instr in code {
        see(alloc, instr, &mut seen)?;
    }
    seen.list(alloc)
}

fn see(alloc: Global, instr: &Instr, seen: &mut Numbering) -> Result<(), NoMemory>
    ensures { OnOk result (seen.new ≡ seen_all seen.old (mentioned_by instr.now)) }
{
    match instr {
        Instr::Look(name) => {
            seen.give(name)?;
            Ok(())
        }
        Instr::Cells(range) => all(&range.names(alloc)?, seen),
        _ => Ok(()),
    }
}

fn all(names: &Names, seen: &mut Numbering) -> Result<(), NoMemory>
    ensures { OnOk result (seen.new ≡ seen_all seen.old names.now) }
{
    for name in names.as_slice() {
        seen.give(name)?;
    }
    Ok(())
}
