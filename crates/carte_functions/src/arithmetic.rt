//! Operators on numbers.

ghost use Rattle.std.specs.Prelude.{◌≡◌, ℤ, ◌+ℤ◌, ◌-ℤ◌, ◌*ℤ◌, neg_ℤ, MatchResult, FitsSigned};
ghost use Rattle.std.specs.Int.{w64};
ghost use Rattle.std.specs.Option.{SomeIff};
ghost use Rattle.carte_value.specs.declared.value.Value.{Value};
ghost use Rattle.carte_tree.specs.Coercions.{as_number, or_wrong, number_value, numbers, two, one};
ghost use Rattle.carte_tree.specs.Numbers.{divided};

use crate::coercions::as_number;
use carte_value::{Bad, Value};

/// A number as a value, where i64 has it.
fn fitting(number: Option<i64>) -> Value
    ensures { (z : ℤ) → SomeIff number (FitsSigned w64 z) z → result ≡ number_value z }
{
    match number {
        Some(number) => Value::Number(number),
        None => Value::Bad(Bad::Num),
    }
}

/// Two values as numbers, or what any operator on two numbers gives in place of a number.
fn two_numbers(values: &[Value]) -> Result<(i64, i64), Value>
    ensures { (g : ℤ → ℤ → Value) → MatchResult result (λ p. two (numbers g) values.now ≡ g p.0 p.1) (λ v. two (numbers g) values.now ≡ v) }
{
    let [left, right] = values else {
        return Err(Value::Empty);
    };
    match (as_number(left), as_number(right)) {
        (Some(left), Some(right)) => Ok((left, right)),
        _ => Err(Value::Bad(Bad::Value)),
    }
}

/// `+`
pub(crate) fn add(values: &[Value]) -> Value
    ensures { result ≡ two (numbers (λ m n. number_value (m +ℤ n))) values.now }
{
    match two_numbers(values) {
        Ok((left, right)) => fitting(left.checked_add(right)),
        Err(other) => other,
    }
}

/// `-` between two operands
pub(crate) fn subtract(values: &[Value]) -> Value
    ensures { result ≡ two (numbers (λ m n. number_value (m -ℤ n))) values.now }
{
    match two_numbers(values) {
        Ok((left, right)) => fitting(left.checked_sub(right)),
        Err(other) => other,
    }
}

/// `*`
pub(crate) fn multiply(values: &[Value]) -> Value
    ensures { result ≡ two (numbers (λ m n. number_value (m *ℤ n))) values.now }
{
    match two_numbers(values) {
        Ok((left, right)) => fitting(left.checked_mul(right)),
        Err(other) => other,
    }
}

/// A quotient, truncated towards zero.
fn quotient(dividend: i64, divisor: i64) -> Value
    ensures { result ≡ divided dividend divisor }
{
    if divisor == 0 {
        return Value::Bad(Bad::Div0);
    }
    match dividend.checked_div(divisor) {
        Some(quotient) => Value::Number(quotient),
        None => Value::Bad(Bad::Num),
    }
}

/// `/`
pub(crate) fn divide(values: &[Value]) -> Value
    ensures { result ≡ two (numbers divided) values.now }
{
    match two_numbers(values) {
        Ok((dividend, divisor)) => quotient(dividend, divisor),
        Err(other) => other,
    }
}

/// `-` before an operand
pub(crate) fn negative(values: &[Value]) -> Value
    ensures { result ≡ one (λ v. or_wrong (as_number v) (λ n. number_value (neg_ℤ n))) values.now }
{
    let [value] = values else {
        return Value::Empty;
    };
    match as_number(value) {
        Some(number) => fitting(number.checked_neg()),
        None => Value::Bad(Bad::Value),
    }
}
