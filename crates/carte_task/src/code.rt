ghost use Rattle.std.specs.Prelude.{◌≡◌, ◌<◌, ◌^◌, IfOk, IfSome, option_copied, slice_get};
ghost use Rattle.carte_task.specs.Wanting.{names_wanted};

use crate::range::Range;
use carte_tree::{Func, Op};
use carte_value::{Name, Names, NoMemory, Value};
use std::alloc::Global;

/// One step of a formula that is written in postfix order. Values wait on a stack.
#[derive(Drop)]
pub(crate) enum Instr {
    /// Puts a value on the stack.
    Push(Value),
    /// Looks a name up.
    Look(Name),
    /// Looks the names of a range up, row by row.
    Cells(Range),
    /// `-` before an operand.
    Negate,
    /// An operator on the two newest values.
    Apply(Op),
    /// A function of that many of the newest values.
    Call(Func, usize),
    /// Takes a condition. True goes on here, false behind the first number of instructions, and what is no truth stays as the result and goes on behind the second.
    Test(usize, usize),
    /// Passes over that many instructions.
    Jump(usize),
    /// Looks up the name that the newest value is.
    Indirect,
    /// Looks up the names that are the lines of the newest value, and joins their values.
    Gather,
}

/// How a formula goes on once its names are looked up.
#[derive(Clone, Copy)]
pub(crate) enum Next {
    /// Behind that many instructions.
    Behind(usize),
    /// With that many of the newest values joined as texts.
    Joined(usize),
}

/// Names to be looked up, in order. One name takes no memory.
#[derive(Drop)]
pub(crate) enum Wanted {
    Nothing,
    One(Name),
    Many(Names),
}

impl Wanted {
    /// The name at a place counted from 0.
    pub(crate) fn get(&self, at: usize) -> Option<&Name>
        ensures name { option_copied result ≡ slice_get (names_wanted self.now) at }
        ensures bound { IfSome result (λ _. at < 2 ^ 32) }
    {
        match self {
            Wanted::Nothing => None,
            Wanted::One(name) => if at == 0 { Some(name) } else { None },
            Wanted::Many(names) => if at < names.len() {
                Some(&names.as_slice()[at])
            } else {
                None
            },
        }
    }
}

/// Names to be looked up onto the stack, and how it goes on then.
#[derive(Drop)]
pub(crate) struct Pending {
    pub(crate) wanted: Wanted,
    pub(crate) next: Next,
}

impl Instr {
    fn copy(&self, alloc: Global) -> Result<Instr, NoMemory>
        ensures { IfOk result (λ instr. instr ≡ self.now) }
    {
        match self {
            Instr::Push(value) => Ok(Instr::Push(value.copy(alloc)?)),
            Instr::Look(name) => Ok(Instr::Look(name.copy(alloc)?)),
            Instr::Cells(range) => Ok(Instr::Cells(range.copy())),
            Instr::Negate => Ok(Instr::Negate),
            Instr::Apply(op) => Ok(Instr::Apply(*op)),
            Instr::Call(func, count) => Ok(Instr::Call(*func, *count)),
            Instr::Test(other, end) => Ok(Instr::Test(*other, *end)),
            Instr::Jump(count) => Ok(Instr::Jump(*count)),
            Instr::Indirect => Ok(Instr::Indirect),
            Instr::Gather => Ok(Instr::Gather),
        }
    }
}

/// A second list of equal instructions.
pub(crate) fn copy_of(alloc: Global, code: &[Instr]) -> Result<Vec<Instr>, NoMemory>
    ensures { IfOk result (λ copy. copy.items ≡ code.now) }
{
    let mut copy = Vec::new(alloc);
    for instr in code {
        let instr = instr.copy(alloc)?;
        match copy.push(instr) {
            Ok(()) => {}
            Err(_) => return Err(NoMemory),
        }
    }
    Ok(copy)
}
