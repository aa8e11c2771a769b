//! The functions that look at numbers alone.

ghost use Rattle.std.specs.Prelude.{◌≡◌, ◌<◌, ◌≤ℤ◌, ◌^◌, pos, negsuc, ◌+ℤ◌, List, ◌∷◌, length, unwrap_or};
ghost use Rattle.carte_value.specs.declared.value.Value.{Value};
ghost use Rattle.carte_tree.specs.Coercions.{number_value};
ghost use Rattle.carte_tree.specs.Numbers.{total, numbers_in, least, greatest};
ghost use Rattle.carte_tree.specs.Best.{least_on, greatest_on};

use carte_value::{Bad, Value};

/// What a value adds to a sum: nothing, unless it is a number.
fn addend(value: &Value) -> i64
    ensures { (vs : List Value) → total (numbers_in (value.now ∷ vs)) ≡ result +ℤ total (numbers_in vs) }
{
    match value {
        Value::Number(number) => *number,
        _ => 0,
    }
}

/// The lesser of the least number so far and of a value, where that is a number.
fn lesser(best: Option<i64>, value: &Value) -> Option<i64>
    ensures { (vs : List Value) → least_on result (numbers_in vs) ≡ least_on best (numbers_in (value.now ∷ vs)) }
{
    let Value::Number(number) = value else {
        return best;
    };
    match best {
        Some(best) => Some(best.min(*number)),
        None => Some(*number),
    }
}

/// The best number, or 0 where there is none.
fn or_zero(best: Option<i64>) -> Value
    ensures { result ≡ Value.Number (unwrap_or best (pos 0)) }
{
    match best {
        Some(best) => Value::Number(best),
        None => Value::Number(0),
    }
}

/// MIN: the least of the numbers, or 0.
pub(crate) fn min(values: &[Value]) -> Value
    ensures { result ≡ Value.Number (least (numbers_in values.now)) }
{
    let mut best = None;
    for value in values {
        best = lesser(best, value);
    }
    or_zero(best)
}

/// The greater of the greatest number so far and of a value, where that is a number.
#[tactic(auto, using(crate::proofs::Bests::greatest_of_max))]
fn greater(best: Option<i64>, value: &Value) -> Option<i64>
    ensures { (vs : List Value) → greatest_on result (numbers_in vs) ≡ greatest_on best (numbers_in (value.now ∷ vs)) }
{
    let Value::Number(number) = value else {
        return best;
    };
    match best {
        Some(best) => Some(best.max(*number)),
        None => Some(*number),
    }
}

/// MAX: the greatest of the numbers, or 0.
pub(crate) fn max(values: &[Value]) -> Value
    ensures { result ≡ Value.Number (greatest (numbers_in values.now)) }
{
    let mut best = None;
    for value in values {
        best = greater(best, value);
    }
    or_zero(best)
}

/// COUNT: how many of the values are numbers.
pub(crate) fn count(values: &[Value]) -> Value
    requires { length values.now < 2 ^ 32 }
    ensures { result ≡ Value.Number (pos (length (numbers_in values.now))) }
{
    let mut count: u32 = 0;
    for value in values {
        if let Value::Number(_) = value {
            count += 1;
        }
    }
    Value::Number(i64::from(count))
}

/// A sum of few enough numbers, in i128 where no such sum is too great.
fn plus(sum: i128, addend: i64) -> i128
    requires low { negsuc (2 ^ 100) ≤ℤ sum }
    requires high { sum ≤ℤ pos (2 ^ 100) }
    ensures { result ≡ sum +ℤ addend }
{
    sum + i128::from(addend)
}

/// SUM: the exact sum of the numbers.
pub(crate) fn sum(values: &[Value]) -> Value
    requires { length values.now < 2 ^ 32 }
    ensures { result ≡ number_value (total (numbers_in values.now)) }
{
    let mut sum: i128 = 0;
    for value in values {
        sum = plus(sum, addend(value));
    }
    match i64::try_from(sum) {
        Ok(sum) => Value::Number(sum),
        Err(_) => Value::Bad(Bad::Num),
    }
}
