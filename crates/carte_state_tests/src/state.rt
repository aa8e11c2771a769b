//! What a state keeps over loads, crashes and faults.

ghost use Rattle.std.specs.Prelude.{◌≡◌, true, false, List, IfOk, IfSome};
ghost use Rattle.carte_codec.specs.Each.{EachFits};
ghost use Rattle.carte_record.specs.Bodies.{IsUnmarked};
ghost use Rattle.carte_record.specs.declared.batch.Batch.{Batch as SomeBatch};
ghost use Rattle.carte_state.specs.Runs.{AreUnmarked, BeginAll};
ghost use Rattle.carte_state.specs.States.{any_in};

use carte_io::MemDisk;
use carte_record::{Batch, Plain, Seen, Start, Store};
use carte_state::{State, apply_all};
use carte_value::{Names, NoMemory, Seeded, Value};
use std::alloc::Global;
use std::test::Fail;

// A batch that begins so and brings one number.
fn number_batch(alloc: Global, start: Start, number: i64) -> Result<Batch, NoMemory>
    ensures { IfOk result (λ batch. EachFits IsUnmarked batch.entries) }
{
    let mut values = Store::new(alloc, Seeded::of(7));
    values.push(Value::Number(number))?;
    Ok(Batch {
        start,
        values,
        gone: Names::new(alloc),
        seen: Seen::new(alloc, Seeded::of(7)),
        entries: Plain::new(alloc),
        stale: Names::new(alloc),
        verifying: Plain::new(alloc),
        constructive: Plain::new(alloc),
        deep: Plain::new(alloc),
        chain: None,
    })
}

// The state of a disk, or none where it is bad. It is boxed, so that one call drops it.
fn state_on(alloc: Global, disk: &mut MemDisk) -> Result<Option<Box<State>>, NoMemory>
    ensures { IfOk result (λ found. IfSome found (λ state. state.value.journal.broken ≡ false)) }
{
    match State::load(alloc, disk, 1 << 20, Seeded::of(7)) {
        Ok(state) => Ok(Some(Box::new(alloc, state)?)),
        Err(_) => Ok(None),
    }
}

// How many values a disk keeps, and 99 where its state is bad.
fn count_on(alloc: Global, disk: &mut MemDisk) -> Result<usize, NoMemory> {
    match state_on(alloc, disk)? {
        Some(state) => Ok(state.kept().values.len()),
        None => Ok(99),
    }
}

// Whether a disk keeps a number.
fn has_on(alloc: Global, disk: &mut MemDisk, number: i64) -> Result<bool, NoMemory> {
    match state_on(alloc, disk)? {
        Some(state) => Ok(state.value_of(&Value::Number(number).digest()).is_some()),
        None => Ok(false),
    }
}

// Applies 1 behind a clearing, and then 2. Whether both were taken.
fn apply_two(alloc: Global, disk: &mut MemDisk) -> Result<bool, NoMemory> {
    match state_on(alloc, disk)? {
        Some(state) => {
            let mut state = state;
            apply_to(alloc, &mut state, disk)
        }
        None => Ok(false),
    }
}

fn apply_to(alloc: Global, state: &mut State, disk: &mut MemDisk) -> Result<bool, NoMemory>
    requires { state.old.journal.broken ≡ false }
{
    if !is_new(state) {
        return Ok(false);
    }
    let batches = two_batches(alloc)?;
    Ok(apply_all(state, alloc, disk, batches).is_ok())
}

// Nothing is kept in version 1, so batches may begin as they like.
fn is_new(state: &State) -> bool
    ensures { result ≡ true → (batches : List SomeBatch) → BeginAll (any_in state.now) batches }
{
    match state.old() {
        Some(_) => false,
        None => true,
    }
}

fn two_batches(alloc: Global) -> Result<Vec<Batch>, NoMemory>
    ensures { IfOk result (λ batches. AreUnmarked batches.items) }
{
    let first = number_batch(alloc, Start::Cleared, 1)?;
    let second = number_batch(alloc, Start::GoOn, 2)?;
    Ok(vec![in alloc; first, second]?)
}

/// How many writing calls were made, how many values are there then, and whether these two are.
fn loaded(alloc: Global, numbers: [i64; 2]) -> Result<(u64, usize, [bool; 2]), NoMemory> {
    let mut disk = MemDisk::of(alloc, b"", &[])?;
    let passed = if apply_two(alloc, &mut disk)? {
        disk.passed()
    } else {
        0
    };
    let count = count_on(alloc, &mut disk)?;
    let [first, second] = numbers;
    let has = [
        has_on(alloc, &mut disk, first)?,
        has_on(alloc, &mut disk, second)?,
    ];
    Ok((passed, count, has))
}

#[test]
fn what_was_applied_is_loaded(rt: HostRuntime) -> Result<(), Fail> {
    assert!(&rt; loaded(rt.alloc(), [2, 3])? == (10, 2, [true, false]));
    Ok(())
}
