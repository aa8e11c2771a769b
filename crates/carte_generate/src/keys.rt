ghost use Rattle.std.specs.Prelude.{◌≡◌, ◌<◌, ◌≤◌, IsTrue, IfOk};
ghost use Rattle.carte_name.specs.Names.{is_rule_name};
ghost use Rattle.carte_generate.specs.Generated.{key, target_of};

use carte_value::{Name, NameFault, NoMemory};
use std::alloc::Global;

/// The last key of a generated book of so many keys, on which a build of it is measured.
pub fn last_key(alloc: Global, count: u64) -> Result<Name, NoMemory>
    requires some { 1 ≤ count }
    requires few { count ≤ 262144 }
    ensures key { IfOk result (λ k. k ≡ target_of count) }
    ensures name { IfOk result (λ k. IsTrue (is_rule_name k)) }
{
    key(alloc, count - 1)
}

/// The key with this number.
pub(crate) fn key(alloc: Global, number: u64) -> Result<Name, NoMemory>
    requires { number < 262144 }
    ensures key { IfOk result (λ k. k ≡ key number) }
    ensures name { IfOk result (λ k. IsTrue (is_rule_name k)) }
{
    let text = format!(in alloc; "k{number}")?;
    match Name::rule(alloc, text.as_str()) {
        Ok(name) => Ok(name),
        Err(NameFault::NoMemory) => Err(NoMemory),
        Err(NameFault::BadName(_)) => unreachable!(),
    }
}
