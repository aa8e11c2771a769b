ghost use Rattle.std.specs.Prelude.{◌≡◌, ◌++◌, ◌∷◌, [], codes, IfOk, OnOk, string_bytes};
ghost use Rattle.std.specs.Fmt.{decimal};
ghost use Rattle.carte_report.specs.Reply.{keys_line, target_line, target_lines, ran_lines, counts_line};

use crate::pieces::{between, number_after};
use carte_value::{Name, Names, NoMemory, Value, Values};
use std::alloc::Global;

/// The line before the reply of a build of a generated book: how many keys that has, and how many of them are inputs.
pub fn keys_line(alloc: Global, keys: u64, inputs: u64) -> Result<String, NoMemory>
    ensures { IfOk result (λ text. string_bytes text ≡ keys_line keys inputs) }
{
    let keys = number_after(alloc, "keys ", keys)?;
    let inputs = number_after(alloc, ", inputs ", inputs)?;
    between(alloc, keys.as_str(), inputs.as_str(), "\n")
}

/// The reply of a build: the targets with their values, the rules that are listed, and the counts: of those that ran, of those
/// that were given up, and of those that were reused.
pub fn reply(
    alloc: Global,
    targets: &Names,
    values: &Values,
    listed: &Names,
    ran: u64,
    given_up: u64,
    reused: u64,
) -> Result<String, NoMemory>
    ensures { IfOk result (λ text. string_bytes text ≡ target_lines targets.now values.now ++ (ran_lines listed.now ++ counts_line ran given_up reused)) }
{
    let mut text = String::new(alloc);
    push_targets(alloc, &mut text, targets.as_slice(), values.as_slice())?;
    push_ran(&mut text, listed.as_slice())?;
    push_counts(alloc, &mut text, ran, given_up, reused)?;
    Ok(text)
}

fn push_targets(
    alloc: Global,
    text: &mut String,
    targets: &[Name],
    values: &[Value],
) -> Result<(), NoMemory>
    ensures { OnOk result (string_bytes text.new ≡ string_bytes text.old ++ target_lines targets.now values.now) }
{
    let mut left = values;
    for target in targets {
        let [value, rest @ ..] = left else {
            break;
        };
        push_target(alloc, text, target, value)?;
        left = rest;
    }
    Ok(())
}

fn push_target(
    alloc: Global,
    text: &mut String,
    target: &Name,
    value: &Value,
) -> Result<(), NoMemory>
    ensures { OnOk result (string_bytes text.new ≡ string_bytes text.old ++ target_line target.now value.now) }
{
    let value = value.print(alloc)?;
    text.push_str(target.text())?;
    text.push_str(" = ")?;
    text.push_str(value.as_str())?;
    text.push_str("\n")?;
    Ok(())
}

fn push_ran(text: &mut String, ran: &[Name]) -> Result<(), NoMemory>
    ensures { OnOk result (string_bytes text.new ≡ string_bytes text.old ++ ran_lines ran.now) }
{
    for name in ran {
        push_line(text, "ran ", name.text())?;
    }
    Ok(())
}

fn push_line(text: &mut String, front: &str, name: &str) -> Result<(), NoMemory>
    ensures { OnOk result (string_bytes text.new ≡ string_bytes text.old ++ (front.now ++ (name.now ++ 10 ∷ []))) }
{
    text.push_str(front)?;
    text.push_str(name)?;
    text.push_str("\n")?;
    Ok(())
}

fn push_counts(
    alloc: Global,
    text: &mut String,
    ran: u64,
    given_up: u64,
    reused: u64,
) -> Result<(), NoMemory>
    ensures { OnOk result (string_bytes text.new ≡ string_bytes text.old ++ counts_line ran given_up reused) }
{
    push_count(alloc, text, "ran ", ran)?;
    push_count(alloc, text, ", given up ", given_up)?;
    push_count(alloc, text, ", reused ", reused)?;
    text.push_str("\n")?;
    Ok(())
}

fn push_count(alloc: Global, text: &mut String, front: &str, count: u64) -> Result<(), NoMemory>
    ensures { OnOk result (string_bytes text.new ≡ string_bytes text.old ++ (front.now ++ decimal count)) }
{
    let count = count.to_string(alloc)?;
    text.push_str(front)?;
    text.push_str(count.as_str())?;
    Ok(())
}
