//! Orders of static rules, and the first path to a dynamic one.

use crate::books::{book_of, listed, names_of, told};
use carte_topo::{PlanFault, dynamic_path, order};
use std::alloc::Global;
use std::test::Fail;

fn ordered(alloc: Global, rules: &str, targets: &str) -> Result<String, Fail> {
    let book = book_of(alloc, "x y", 1, rules)?;
    let targets = names_of(alloc, targets)?;
    match order(alloc, &book, &targets) {
        Ok(names) => listed(alloc, "order", &names),
        Err(PlanFault::Refused(reason)) => told(alloc, &reason),
        Err(PlanFault::NoMemory) => Err("no memory".into()),
    }
}

fn path(alloc: Global, rules: &str, targets: &str) -> Result<String, Fail> {
    let book = book_of(alloc, "x y", 1, rules)?;
    let targets = names_of(alloc, targets)?;
    match dynamic_path(alloc, &book, targets.as_slice())? {
        Some(path) => listed(alloc, "path", &path),
        None => Ok(String::from_str(alloc, "none")?),
    }
}

const DIAMOND: &str = "base: x + y; left: base + x; right: y + base; top: left + right";

const STUCK: &str =
    "good: x; one: two; two: good + three; three: one; self: x + self; lost: good + far; far: nowhere; both: self + one";

const DYNAMIC: &str =
    "pick: INDIRECT(x); way: pick; gone: nowhere + way; round: round + pick; later: y + way; stuck: stuck";

// Worked out by hand: depth first with references in their order, the reason of the first stuck target, and before it
// the shortest path to a dynamic rule, of equally short ones the first in byte order.
const ORDERS: &[(&str, &str, &str)] = &[
    (DIAMOND, "top", "order base left right top"),
    (DIAMOND, "right", "order base right"),
    (DIAMOND, "right top", "order base right left top"),
    (DIAMOND, "base base x", "order base"),
    (DIAMOND, "x y", "order"),
    (DIAMOND, "", "order"),
    ("a: x; b: INDIRECT(x); stuck: stuck", "a", "order a"),
    (STUCK, "one", "cycle one two three one"),
    (STUCK, "self", "cycle self self"),
    (STUCK, "both", "cycle both self self"),
    (STUCK, "lost", "missing lost far nowhere"),
    (STUCK, "nowhere", "missing nowhere"),
    (STUCK, "good far one", "missing far nowhere"),
    (STUCK, "x two far", "cycle two three one two"),
    (DYNAMIC, "pick", "dynamic pick"),
    (DYNAMIC, "gone", "dynamic gone way pick"),
    (DYNAMIC, "round", "dynamic round pick"),
    (DYNAMIC, "nowhere later", "dynamic later way pick"),
    (DYNAMIC, "stuck later gone", "dynamic gone way pick"),
];

// Worked out by hand from the order of paths: the shortest, and of these the first name by name.
const PATHS: &[(&str, &str, &str)] = &[
    ("t: INDIRECT(x)", "t", "path t"),
    ("t: b + a; a: INDIRECT(x); b: INDIRECT(x)", "t", "path t a"),
    (
        "t: b2 + b10; b2: INDIRECT(x); b10: INDIRECT(x)",
        "t",
        "path t b10",
    ),
    (
        "t: a + b; a: z; b: c; c: INDIRECT(x); z: INDIRECT(x)",
        "t",
        "path t a z",
    ),
    (
        "t: b + a; a: c; c: d; d: INDIRECT(x); b: z; z: INDIRECT(x)",
        "t",
        "path t b z",
    ),
    ("s: a; a: b; b: INDIRECT(x); t: b", "s t", "path t b"),
    ("s: t; t: INDIRECT(x)", "s t", "path t"),
    ("s: INDIRECT(x); t: INDIRECT(x)", "t s t", "path s"),
    (
        "t: u; u: t + v; v: u + w; w: INDIRECT(t)",
        "t",
        "path t u v w",
    ),
    ("t: a + x; a: y; d: INDIRECT(t)", "t", "none"),
    ("t: u; u: t", "t u", "none"),
    ("d: INDIRECT(x)", "x", "none"),
    ("d: INDIRECT(x)", "", "none"),
];

#[test]
fn orders_and_reasons(rt: HostRuntime) -> Result<(), Fail> {
    for (rules, targets, want) in ORDERS {
        let text = ordered(rt.alloc(), rules, targets)?;
        assert_eq!(rt; text.as_str(), *want, "{targets} in {rules}");
    }
    Ok(())
}

#[test]
fn first_dynamic_paths(rt: HostRuntime) -> Result<(), Fail> {
    for (rules, targets, want) in PATHS {
        let text = path(rt.alloc(), rules, targets)?;
        assert_eq!(rt; text.as_str(), *want, "{targets} in {rules}");
    }
    Ok(())
}
