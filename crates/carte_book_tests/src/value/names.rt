//! Names and areas.

ghost use Rattle.carte_value.specs.Areas.{IsArea};

use crate::rows::{Told, rows_hold};
use crate::value::rows::NAMES;
use carte_value::{Area, Kind, Name, NameFault, NoMemory};
use std::alloc::Global;
use std::test::Fail;

// The text of a name, or the place of what is wrong.
fn shown(alloc: Global, name: Result<Name, NameFault>) -> Result<String, NoMemory> {
    match name {
        Ok(name) => Ok(String::from_str(alloc, name.text())?),
        Err(NameFault::BadName(place)) => Ok(format!(in alloc; "bad {place}")?),
        Err(NameFault::NoMemory) => Err(NoMemory),
    }
}

// As shown, if the test says the same.
fn named(alloc: Global, kind: Kind, text: &str) -> Result<String, NoMemory> {
    let found = shown(alloc, Name::of(alloc, kind, text))?;
    if kind.is_name(text) == found.starts_with("bad ") {
        return Ok(String::from_str(alloc, "is_name differs")?);
    }
    Ok(found)
}

// The area's sides, its size and its names, where they are few.
fn area_text(alloc: Global, area: &Area) -> Result<String, NoMemory>
    requires { IsArea area.now }
{
    let size = area.size();
    let mut text = format!(in alloc;
        "{} {} {} {} {size}",
        area.left, area.top, area.right, area.bottom
    )?;
    if size < 10 {
        for name in area.names(alloc)?.as_slice() {
            text.push_str(" ")?;
            text.push_str(name.text())?;
        }
    }
    Ok(text)
}

fn area(alloc: Global, corners: &str) -> Result<String, Fail> {
    let (a, b) = corners.split_once(' ').ok_or("no corners")?;
    let area = Area::of(&Name::cell(alloc, a)?, &Name::exact(alloc, b)?);
    match area {
        Some(area) => Ok(area_text(alloc, &area)?),
        None => Ok(String::from_str(alloc, "none")?),
    }
}

#[derive(Drop)]
struct Naming;

impl Told for Naming {
    fn told(&self, alloc: Global, asked: &str) -> Result<String, Fail> {
        let (word, text) = asked.split_once(' ').unwrap_or((asked, ""));
        match word {
            "rules" => Ok(named(alloc, Kind::Rules, text)?),
            "sheet" => Ok(named(alloc, Kind::Sheet, text)?),
            "exact" => Ok(shown(alloc, Name::exact(alloc, text))?),
            _ => area(alloc, text),
        }
    }
}

#[test]
fn names(rt: HostRuntime) -> Result<(), Fail> {
    assert_eq!(rt; rows_hold(rt.alloc(), &Naming, NAMES)?, 33);
    Ok(())
}
