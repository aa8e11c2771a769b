ghost use Rattle.std.specs.Prelude.{◌≡◌, ◌↔◌, true, length, OnOk};
ghost use Rattle.carte_value.specs.Firsts.{seen_also};
ghost use Rattle.carte_value.specs.Lists.{Begins};
ghost use Rattle.carte_value.specs.Truths.{Among};
ghost use Rattle.carte_mark.specs.Reached.{Meets};

use carte_value::{Name, Names, NoMemory, Numbering};

/// Puts a name into the set, behind the others where it isn't there.
pub(crate) fn put(name: &Name, names: &mut Numbering) -> Result<(), NoMemory>
    ensures front { Begins names.old names.new }
    ensures put { OnOk result (names.new ≡ seen_also names.old name.now) }
{
    names.give(name)?;
    Ok(())
}

/// Whether one of the needs is in the set.
pub(crate) fn meets(needs: &Names, names: &Numbering) -> bool
    ensures { (result ≡ true) ↔ Meets needs.now names.now }
{
    for need in needs.as_slice() {
        if holds(names, need) {
            return true;
        }
    }
    false
}

/// Whether the name is in the set. Mostly one input has changed: to compare with its name costs less than a look-up.
pub fn holds(names: &Numbering, name: &Name) -> bool
    ensures { (result ≡ true) ↔ Among names.now name.now }
{
    if names.len() == 1 {
        return is_first(names, name);
    }
    names.find(name).is_some()
}

fn is_first(names: &Numbering, name: &Name) -> bool
    requires { length names.now ≡ 1 }
    ensures { (result ≡ true) ↔ Among names.now name.now }
{
    match names.name(0) {
        Some(first) => *first == *name,
        None => false,
    }
}
