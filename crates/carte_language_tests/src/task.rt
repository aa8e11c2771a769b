//! Formulas as machines and as static tasks.

mod rows;

use crate::rows::{Told, rows_hold};
use crate::shown::Shown;
use crate::task::rows::{CELLS, CHOICES, FUNCTIONS, OPERATORS, SHEET, VALUES};
use crate::texts::stop_text;
use carte_effect::{Each, Runs, Snapshot};
use carte_formula::read;
use carte_task::{Machine, StaticTask, Task};
use carte_value::{Kind, Name, NoMemory, Seeded};
use std::alloc::Global;
use std::test::Fail;

// The task of a formula at a key, or nothing where one of the two can't be read.
fn task_of(alloc: Global, kind: Kind, key: &str, formula: &str) -> Result<Option<Task>, NoMemory> {
    let Ok(key) = Name::of(alloc, kind, key) else {
        return Ok(None);
    };
    match read(alloc, kind, formula) {
        Ok(expr) => Ok(Some(Task::of(alloc, kind, &key, &expr, Seeded::of(7))?)),
        Err(_) => Ok(None),
    }
}

fn machine_value(alloc: Global, shown: &Shown, task: Task) -> Result<String, NoMemory> {
    let mut runs = Runs::new(alloc);
    let mut machine = Machine::start(alloc, task, &mut runs)?;
    match machine.drive(alloc, &mut Snapshot::of(shown), &mut runs) {
        Ok(ended) => ended.value().print(alloc),
        Err(halt) => stop_text(alloc, &halt),
    }
}

fn static_value(alloc: Global, shown: &Shown, task: &StaticTask) -> Result<String, NoMemory> {
    let mut runs = Runs::new(alloc);
    match task.run(alloc, &mut Each::of(Snapshot::of(shown)), &mut runs) {
        Ok(Some(ended)) => ended.value().print(alloc),
        _ => Ok(String::from_str(alloc, "no end")?),
    }
}

// What a task comes to as a machine, and how that is as a static task.
fn worth(alloc: Global, shown: &Shown, task: Task) -> Result<String, NoMemory> {
    let mut fixed = match task.as_static(alloc)? {
        Some(fixed) => static_value(alloc, shown, &fixed)?,
        None => String::from_str(alloc, "dynamic")?,
    };
    let value = machine_value(alloc, shown, task)?;
    if fixed == value {
        return Ok(value);
    }
    fixed.push_str(" ")?;
    fixed.push_str(value.as_str())?;
    Ok(fixed)
}

impl Told for Shown {
    fn told(&self, alloc: Global, asked: &str) -> Result<String, NoMemory> {
        match task_of(alloc, self.kind(), self.key(), asked)? {
            Some(task) => worth(alloc, self, task),
            None => Ok(String::from_str(alloc, "no formula")?),
        }
    }
}

#[test]
fn formulas(rt: HostRuntime) -> Result<(), Fail> {
    let alloc = rt.alloc();
    let mut shown = Shown::rules(alloc, true);
    shown.put_lines(alloc, VALUES)?;
    for (rows, count) in [(OPERATORS, 87), (FUNCTIONS, 90), (CHOICES, 41)] {
        assert_eq!(rt; rows_hold(alloc, &shown, rows)?, count);
    }
    Ok(())
}

#[test]
fn sheets(rt: HostRuntime) -> Result<(), Fail> {
    let alloc = rt.alloc();
    let mut shown = Shown::sheet(alloc);
    shown.put_lines(alloc, CELLS)?;
    assert_eq!(rt; rows_hold(alloc, &shown, SHEET)?, 43);
    Ok(())
}
