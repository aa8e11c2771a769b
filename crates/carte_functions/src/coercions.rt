ghost use Rattle.std.specs.Prelude.{◌≡◌, length};
ghost use Rattle.carte_tree.specs.Coercions.{as_number, as_bool, first_bad, bool_value};

use carte_value::{Bad, Value};

/// A value as a number: Empty is 0, and a text is none.
pub(crate) fn as_number(value: &Value) -> Option<i64>
    ensures { result ≡ as_number value.now }
{
    match value {
        Value::Empty => Some(0),
        Value::Number(number) => Some(*number),
        Value::Text(_) => None,
        Value::Bad(_) => None,
    }
}

/// A value as a boolean: 0 and Empty are false, and a text is none.
pub(crate) fn as_bool(value: &Value) -> Option<bool>
    ensures { result ≡ as_bool value.now }
{
    match as_number(value) {
        Some(number) => Some(number != 0),
        None => None,
    }
}

/// A boolean as a number.
pub(crate) fn of_bool(holds: bool) -> Value
    ensures { result ≡ bool_value holds }
{
    Value::Number(if holds { 1 } else { 0 })
}

/// The first bad value, in order.
pub(crate) fn first_bad(values: &[Value]) -> Option<Bad>
    ensures { result ≡ first_bad values.now }
{
    for value in values {
        if let Value::Bad(bad) = value {
            return Some(*bad);
        }
    }
    None
}
