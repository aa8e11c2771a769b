//! `&` in the place of its left operand.

ghost use Rattle.std.specs.Prelude.{◌≡◌, ◌++◌, ◌∷◌, [], None, IfOk, IfErr, OnOk, OnErr, if◌then◌else◌};
ghost use Rattle.carte_value.specs.declared.value.Bad.TheVariants as bad;
ghost use Rattle.carte_value.specs.declared.value.Value.TheVariants as value;
ghost use Rattle.carte_tree.specs.declared.expr.Op.TheVariants.{Join};
ghost use Rattle.carte_tree.specs.Coercions.{first_bad, text_of, text_value};
ghost use Rattle.carte_tree.specs.Applied.{applied};

use crate::texts::{append, made, text_of};
use carte_value::{Bad, NoMemory, Text, Value};
use std::alloc::Global;

/// Makes of a value what `&` makes of it and of a value behind it, as `apply` does; where there is no memory it is as before.
/// A text grows in place where no copy shares its bytes, so that a chain of `&` doesn't copy at each step all that was
/// joined before.
#[tactic(auto, using(crate::proofs::Pairs::joined_two))]
pub fn join_onto(alloc: Global, left: &mut Value, right: &Value) -> Result<(), NoMemory>
    ensures value { OnOk result (left.new ≡ applied Join (left.old ∷ right.now ∷ [])) }
    ensures kept { OnErr result (left.new ≡ left.old) }
    ensures memory { IfErr result (λ e. first_bad (left.old ∷ right.now ∷ []) ≡ None) }
{
    if let Some(bad) = first_of_two(left, right) {
        *left = Value::Bad(bad);
        return Ok(());
    }
    match left {
        Value::Text(text) => {
            if !grow(alloc, text, right)? {
                *left = Value::Bad(Bad::Len);
            }
            Ok(())
        }
        _ => {
            *left = pair(alloc, left, right)?;
            Ok(())
        }
    }
}

// The first bad one of two values.
fn first_of_two(left: &Value, right: &Value) -> Option<Bad>
    ensures { result ≡ first_bad (left.now ∷ right.now ∷ []) }
{
    match (left, right) {
        (Value::Bad(bad), _) => Some(*bad),
        (_, Value::Bad(bad)) => Some(*bad),
        _ => None,
    }
}

// A text with the text of a value behind it; false where that is too long for a text.
fn grow(alloc: Global, text: &mut Text, right: &Value) -> Result<bool, NoMemory>
    ensures grown { IfOk result (λ fits. text_value (text.old ++ text_of right.now) ≡ (if fits then value.Text text.new else value.Bad bad.Len)) }
    ensures kept { OnErr result (text.new ≡ text.old) }
{
    let more = text_of(alloc, right)?;
    match text.append(alloc, more.as_str()) {
        Ok(true) => Ok(true),
        Ok(false) => Ok(false),
        Err(refused) => Err(refused),
    }
}

// The texts of two values, one behind the other.
fn pair(alloc: Global, left: &Value, right: &Value) -> Result<Value, NoMemory>
    ensures { IfOk result (λ v. v ≡ text_value (text_of left.now ++ text_of right.now)) }
{
    let mut text = String::new(alloc);
    append(&mut text, left)?;
    append(&mut text, right)?;
    made(text)
}
