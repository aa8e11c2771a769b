//! The functions on booleans.

ghost use Rattle.std.specs.Prelude.{◌≡◌, not};
ghost use Rattle.std.specs.List.{list_all, list_any};
ghost use Rattle.carte_tree.specs.Coercions.{as_bool, each_as, or_wrong, one, bool_value};

use crate::coercions::{as_bool, of_bool};
use carte_value::{Bad, Value};

/// AND: whether each value is true.
pub(crate) fn and(values: &[Value]) -> Value
    ensures { result ≡ or_wrong (each_as as_bool values.now) (λ bs. bool_value (list_all (λ b. b) bs)) }
{
    let mut all = true;
    for value in values {
        match as_bool(value) {
            Some(holds) => all = all && holds,
            None => return Value::Bad(Bad::Value),
        }
    }
    of_bool(all)
}

/// OR: whether some value is true.
pub(crate) fn or(values: &[Value]) -> Value
    ensures { result ≡ or_wrong (each_as as_bool values.now) (λ bs. bool_value (list_any (λ b. b) bs)) }
{
    let mut any = false;
    for value in values {
        match as_bool(value) {
            Some(holds) => any = any || holds,
            None => return Value::Bad(Bad::Value),
        }
    }
    of_bool(any)
}

/// NOT: the other boolean.
pub(crate) fn not(values: &[Value]) -> Value
    ensures { result ≡ one (λ v. or_wrong (as_bool v) (λ b. bool_value (not b))) values.now }
{
    let [value] = values else {
        return Value::Empty;
    };
    match as_bool(value) {
        Some(holds) => of_bool(!holds),
        None => Value::Bad(Bad::Value),
    }
}
