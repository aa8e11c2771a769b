//! Comparisons.

ghost use Rattle.std.specs.Prelude.{◌≡◌};
ghost use Rattle.carte_tree.specs.Coercions.{two, bool_value};
ghost use Rattle.carte_tree.specs.Order.{value_cmp, passes};

use crate::coercions::of_bool;
use carte_tree::Op;
use carte_value::Value;
use std::cmp::Ordering;

/// The order of two values that aren't bad.
fn order(left: &Value, right: &Value) -> Ordering
    ensures { result ≡ value_cmp left.now right.now }
{
    match (left, right) {
        (Value::Number(left), Value::Number(right)) => left.cmp(right),
        (Value::Number(_), Value::Text(_)) => Ordering::Less,
        (Value::Number(left), Value::Empty) => left.cmp(&0),
        (Value::Text(_), Value::Number(_)) => Ordering::Greater,
        (Value::Text(left), Value::Text(right)) => left.text().cmp(right.text()),
        (Value::Text(left), Value::Empty) => left.text().cmp(""),
        (Value::Empty, Value::Number(right)) => 0.cmp(right),
        (Value::Empty, Value::Text(right)) => "".cmp(right.text()),
        _ => Ordering::Equal,
    }
}

/// Whether an order is one for which a comparison holds.
fn holds(op: Op, order: Ordering) -> bool
    ensures { result ≡ passes op order }
{
    match op {
        Op::Eq => order.is_eq(),
        Op::Ne => order.is_ne(),
        Op::Lt => order.is_lt(),
        Op::Le => order.is_le(),
        Op::Gt => order.is_gt(),
        Op::Ge => order.is_ge(),
        _ => false,
    }
}

/// `=`, `<>`, `<`, `<=`, `>` and `>=`
pub(crate) fn compare(op: Op, values: &[Value]) -> Value
    ensures { result ≡ two (λ v w. bool_value (passes op (value_cmp v w))) values.now }
{
    let [left, right] = values else {
        return Value::Empty;
    };
    of_bool(holds(op, order(left, right)))
}
