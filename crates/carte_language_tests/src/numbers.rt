//! Names that get numbers.

use carte_value::{Name, NoMemory, Numbering, Seeded};
use std::alloc::Global;
use std::test::Fail;

// The number that each of these names is given, and then what each is found to have.
const GIVEN: &[(&str, &str, &str)] = &[
    ("b a b", "0 1 0", "0 1 0"),
    ("b", "0", "0"),
    ("a b c b a A1", "0 1 2 1 0 3", "0 1 2 1 0 3"),
];

fn names_of(alloc: Global, texts: &str) -> Result<Vec<Name>, NoMemory> {
    let mut names = Vec::new(alloc);
    for text in texts.split(' ') {
        if let Ok(name) = Name::exact(alloc, text) {
            names.push(name)?;
        }
    }
    Ok(names)
}

fn push(alloc: Global, text: &mut String, number: u32) -> Result<(), NoMemory> {
    let space = if text.is_empty() { "" } else { " " };
    text.push_str(format!(in alloc; "{space}{number}")?.as_str())?;
    Ok(())
}

fn given(alloc: Global, numbers: &mut Numbering, names: &[Name]) -> Result<String, NoMemory> {
    let mut text = String::new(alloc);
    for name in names {
        push(alloc, &mut text, numbers.give(name)?)?;
    }
    Ok(text)
}

// Of each name that is found, and stands at its number, that number.
fn found(alloc: Global, numbers: &Numbering, names: &[Name]) -> Result<String, NoMemory> {
    let mut text = String::new(alloc);
    for name in names {
        if let Some(number) = numbers.find(name) {
            if numbers.name(number) == Some(name) {
                push(alloc, &mut text, number)?;
            }
        }
    }
    Ok(text)
}

#[test]
fn names_get_numbers(rt: HostRuntime) -> Result<(), Fail> {
    let alloc = rt.alloc();
    for (texts, want, there) in GIVEN {
        let names = names_of(alloc, texts)?;
        let mut numbers = Numbering::new(alloc, Seeded::of(7));
        assert_eq!(rt; found(alloc, &numbers, &names)?.as_str(), "", "{texts}");
        assert_eq!(rt;
            given(alloc, &mut numbers, &names)?.as_str(),
            *want,
            "{texts}"
        );
        assert_eq!(rt; found(alloc, &numbers, &names)?.as_str(), *there, "{texts}");
        assert_eq!(rt; numbers.list(alloc)?.len(), numbers.len(), "{texts}");
    }
    Ok(())
}
