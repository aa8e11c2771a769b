//! What each instruction does to the stack. Nothing is fetched here: it is said which names are to be looked up.

ghost use Rattle.std.specs.Prelude.{◌≡◌, ◌++◌, ◌∷◌, [], List, length, IfOk, OnErr, OnOk};
ghost use Rattle.carte_tree.specs.Texts.{joined};
ghost use Rattle.carte_task.specs.Code.{newest, below, put, top};
ghost use Rattle.carte_task.specs.Applying.{Applies};
ghost use Rattle.carte_task.specs.Wanting.{names_wanted};
ghost use Rattle.carte_task.specs.declared.code.Instr.TheVariants as i;

use crate::code::{Instr, Next, Pending, Wanted};
use crate::range::Range;
use carte_functions::{condition, join_onto, name_in, names_in};
use carte_tree::{Func, Op};
use carte_value::{Kind, Name, NoMemory, Value};
use std::alloc::Global;

/// Does one instruction to the stack. None where it goes on with the next one; where it has no memory, the stack is as before.
pub(crate) fn apply(
    alloc: Global,
    kind: Kind,
    instr: &Instr,
    values: &mut Vec<Value>,
) -> Result<Option<Pending>, NoMemory>
    ensures { Applies kind instr.now values.old.items values.new.items result }
{
    match instr {
        Instr::Push(value) => push(alloc, kind, value, values),
        Instr::Look(name) => look(alloc, kind, name, values),
        Instr::Cells(range) => cells(alloc, kind, range, values),
        Instr::Negate => negate(alloc, kind, values),
        Instr::Apply(op) => operate(alloc, kind, *op, values),
        Instr::Call(func, count) => call(alloc, kind, *func, *count, values),
        Instr::Test(other, end) => test(alloc, kind, *other, *end, values),
        Instr::Jump(count) => Ok(Some(behind(*count))),
        Instr::Indirect => indirect(alloc, kind, values),
        Instr::Gather => gather(alloc, kind, values),
    }
}

// Nothing to be looked up.
fn behind(count: usize) -> Pending
    ensures wanted { names_wanted result.wanted ≡ [] }
    ensures next { result.next ≡ Next.Behind count }
{
    Pending {
        wanted: Wanted::Nothing,
        next: Next::Behind(count),
    }
}

// A value in the place of the newest ones.
#[inline(always)]
fn replace(values: &mut Vec<Value>, count: usize, value: Value) -> Result<(), NoMemory>
    ensures ok { OnOk result (values.new.items ≡ put count values.old.items value) }
    ensures err { OnErr result (values.new.items ≡ values.old.items) }
{
    if let Err(_) = values.reserve(1) {
        return Err(NoMemory);
    }
    let len = values.len().saturating_sub(count);
    values.truncate(len);
    values.push_reserved(value);
    Ok(())
}

// The newest values.
fn newest(values: &Vec<Value>, count: usize) -> &[Value]
    ensures { result.now ≡ newest count values.now.items }
{
    let from = values.len().saturating_sub(count);
    &values.as_slice()[from..]
}

// The newest value, or Empty where there is none.
pub(crate) fn top(alloc: Global, values: &Vec<Value>) -> Result<Value, NoMemory>
    ensures { IfOk result (λ v. v ≡ top values.now.items) }
{
    match newest(values, 1).first() {
        Some(value) => value.copy(alloc),
        None => Ok(Value::Empty),
    }
}

fn push(
    alloc: Global,
    kind: Kind,
    value: &Value,
    values: &mut Vec<Value>,
) -> Result<Option<Pending>, NoMemory>
    ensures { Applies kind (i.Push value.now) values.old.items values.new.items result }
{
    match values.push(value.copy(alloc)?) {
        Ok(()) => Ok(None),
        Err(_) => Err(NoMemory),
    }
}

fn look(
    alloc: Global,
    kind: Kind,
    name: &Name,
    values: &Vec<Value>,
) -> Result<Option<Pending>, NoMemory>
    ensures { Applies kind (i.Look name.now) values.now.items values.now.items result }
{
    Ok(Some(Pending {
        wanted: Wanted::One(name.copy(alloc)?),
        next: Next::Behind(0),
    }))
}

fn cells(
    alloc: Global,
    kind: Kind,
    range: &Range,
    values: &Vec<Value>,
) -> Result<Option<Pending>, NoMemory>
    ensures { Applies kind (i.Cells range.now) values.now.items values.now.items result }
{
    Ok(Some(Pending {
        wanted: Wanted::Many(range.names(alloc)?),
        next: Next::Behind(0),
    }))
}

fn negate(alloc: Global, kind: Kind, values: &mut Vec<Value>) -> Result<Option<Pending>, NoMemory>
    ensures { Applies kind i.Negate values.old.items values.new.items result }
{
    let value = carte_functions::negate(newest(values, 1));
    replace(values, 1, value)?;
    Ok(None)
}

fn operate(
    alloc: Global,
    kind: Kind,
    op: Op,
    values: &mut Vec<Value>,
) -> Result<Option<Pending>, NoMemory>
    ensures { Applies kind (i.Apply op) values.old.items values.new.items result }
{
    if op == Op::Join {
        join_two(alloc, values)?;
        return Ok(None);
    }
    let value = carte_functions::apply(alloc, op, newest(values, 2))?;
    replace(values, 2, value)?;
    Ok(None)
}

// Joins the two newest values as texts, in the place of the first, which grows where it stands.
#[tactic(auto, using(crate::proofs::Stack::two_joined))]
fn join_two(alloc: Global, values: &mut Vec<Value>) -> Result<(), NoMemory>
    ensures ok { OnOk result (values.new.items ≡ put 2 values.old.items (joined (newest 2 values.old.items))) }
    ensures err { OnErr result (values.new.items ≡ values.old.items) }
{
    if values.len() < 2 {
        return join(alloc, values, 2);
    }
    let Some(right) = values.pop() else {
        unreachable!()
    };
    let Some(mut left) = values.pop() else {
        unreachable!()
    };
    match join_onto(alloc, &mut left, &right) {
        Ok(()) => {
            values.push_reserved(left);
            Ok(())
        }
        Err(refused) => {
            values.push_reserved(left);
            values.push_reserved(right);
            Err(refused)
        }
    }
}

fn call(
    alloc: Global,
    kind: Kind,
    func: Func,
    count: usize,
    values: &mut Vec<Value>,
) -> Result<Option<Pending>, NoMemory>
    ensures { Applies kind (i.Call func count) values.old.items values.new.items result }
{
    let args = newest(values, count);
    if args.len() > 4294967295 {
        return Err(NoMemory);
    }
    let value = carte_functions::call(alloc, func, args)?;
    replace(values, count, value)?;
    Ok(None)
}

fn test(
    alloc: Global,
    kind: Kind,
    other: usize,
    end: usize,
    values: &mut Vec<Value>,
) -> Result<Option<Pending>, NoMemory>
    ensures { Applies kind (i.Test other end) values.old.items values.new.items result }
{
    let value = top(alloc, values)?;
    match condition(&value) {
        Ok(true) => Ok(Some(drop_top(values, 0))),
        Ok(false) => Ok(Some(drop_top(values, other))),
        Err(value) => {
            replace(values, 1, value)?;
            Ok(Some(behind(end)))
        }
    }
}

fn drop_top(values: &mut Vec<Value>, count: usize) -> Pending
    ensures values { values.new.items ≡ below 1 values.old.items }
    ensures wanted { names_wanted result.wanted ≡ [] }
    ensures next { result.next ≡ Next.Behind count }
{
    let len = values.len().saturating_sub(1);
    values.truncate(len);
    behind(count)
}

fn indirect(alloc: Global, kind: Kind, values: &mut Vec<Value>) -> Result<Option<Pending>, NoMemory>
    ensures { Applies kind i.Indirect values.old.items values.new.items result }
{
    let value = top(alloc, values)?;
    match name_in(alloc, kind, &value)? {
        Ok(name) => Ok(Some(one(name, values))),
        Err(value) => {
            replace(values, 1, value)?;
            Ok(None)
        }
    }
}

// One name to be looked up in the place of the newest value.
fn one(name: Name, values: &mut Vec<Value>) -> Pending
    ensures values { values.new.items ≡ below 1 values.old.items }
    ensures wanted { names_wanted result.wanted ≡ name ∷ [] }
    ensures next { result.next ≡ Next.Behind 0 }
{
    let len = values.len().saturating_sub(1);
    values.truncate(len);
    Pending {
        wanted: Wanted::One(name),
        next: Next::Behind(0),
    }
}

fn gather(alloc: Global, kind: Kind, values: &mut Vec<Value>) -> Result<Option<Pending>, NoMemory>
    ensures { Applies kind i.Gather values.old.items values.new.items result }
{
    let value = top(alloc, values)?;
    match names_in(alloc, kind, &value)? {
        Ok(names) => {
            let len = values.len().saturating_sub(1);
            values.truncate(len);
            let count = names.len();
            Ok(Some(Pending {
                wanted: Wanted::Many(names),
                next: Next::Joined(count),
            }))
        }
        Err(value) => {
            replace(values, 1, value)?;
            Ok(None)
        }
    }
}

/// Joins the newest values as texts, in their place.
pub(crate) fn join(alloc: Global, values: &mut Vec<Value>, count: usize) -> Result<(), NoMemory>
    ensures ok { OnOk result (values.new.items ≡ put count values.old.items (joined (newest count values.old.items))) }
    ensures err { OnErr result (values.new.items ≡ values.old.items) }
{
    let value = carte_functions::apply(alloc, Op::Join, newest(values, count))?;
    replace(values, count, value)
}
