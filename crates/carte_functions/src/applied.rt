//! Operators and functions by their names.

ghost use Rattle.std.specs.Prelude.{◌≡◌, ◌<◌, ◌^◌, true, length, None, IfOk, IfErr};
ghost use Rattle.carte_tree.specs.declared.expr.Op.TheVariants.{Join};
ghost use Rattle.carte_tree.specs.Coercions.{first_bad};
ghost use Rattle.carte_tree.specs.Applied.{applied, condition, negated, pick};
ghost use Rattle.carte_tree.specs.Functions.{called, is_strict};

use crate::arithmetic::{add, divide, multiply, negative, subtract};
use crate::coercions::first_bad;
use crate::logic::{and, not, or};
use crate::numbers::{count, max, min, sum};
use crate::order::compare;
use crate::texts::{join, len, line, lines, upper};
use carte_tree::{Func, Op};
use carte_value::{Bad, NoMemory, Value};
use std::alloc::Global;

/// What an operator makes of the values of its two operands: the first bad one, and else `#VALUE!` where one has the wrong kind.
/// Of another number of values it makes Empty; no formula has such an operator. Memory is wanted for `&` alone.
pub fn apply(alloc: Global, op: Op, values: &[Value]) -> Result<Value, NoMemory>
    ensures value { IfOk result (λ v. v ≡ applied op values.now) }
    ensures memory { IfErr result (λ e. (op ≡ Join) × (first_bad values.now ≡ None)) }
{
    if let Some(bad) = first_bad(values) {
        return Ok(Value::Bad(bad));
    }
    match op {
        Op::Add => Ok(add(values)),
        Op::Sub => Ok(subtract(values)),
        Op::Mul => Ok(multiply(values)),
        Op::Div => Ok(divide(values)),
        Op::Join => join(alloc, values),
        _ => Ok(compare(op, values)),
    }
}

/// What `-` before an operand makes of its value.
pub fn negate(values: &[Value]) -> Value
    ensures { result ≡ negated values.now }
{
    match first_bad(values) {
        Some(bad) => Value::Bad(bad),
        None => negative(values),
    }
}

/// Whether a condition holds, or what IF and PICK give in place of a branch: a bad condition itself, and `#VALUE!` for a text.
pub fn condition(value: &Value) -> Result<bool, Value>
    ensures { result ≡ condition value.now }
{
    match value {
        Value::Empty => Ok(false),
        Value::Number(number) => Ok(*number != 0),
        Value::Text(_) => Err(Value::Bad(Bad::Value)),
        Value::Bad(bad) => Err(Value::Bad(*bad)),
    }
}

/// PICK: one of two values, whatever the other is.
fn pick(alloc: Global, values: &[Value]) -> Result<Value, NoMemory>
    ensures { IfOk result (λ v. v ≡ pick values.now) }
{
    let [test, first, second] = values else {
        return Ok(Value::Empty);
    };
    match condition(test) {
        Ok(true) => first.copy(alloc),
        Ok(false) => second.copy(alloc),
        Err(other) => Ok(other),
    }
}

/// Whether a bad value among the arguments of a function is what it gives.
fn is_strict(func: Func) -> bool
    ensures { result ≡ is_strict func }
{
    match func {
        Func::Count | Func::Pick => false,
        Func::If | Func::Indirect | Func::Gather => false,
        _ => true,
    }
}

/// What a function makes of values of which none is bad, unless it takes bad ones.
fn call_clean(alloc: Global, func: Func, values: &[Value]) -> Result<Value, NoMemory>
    requires clean { is_strict func ≡ true → first_bad values.now ≡ None }
    requires length { length values.now < 2 ^ 32 }
    ensures { IfOk result (λ v. v ≡ called func values.now) }
{
    match func {
        Func::Sum => Ok(sum(values)),
        Func::Min => Ok(min(values)),
        Func::Max => Ok(max(values)),
        Func::Count => Ok(count(values)),
        Func::Concat => join(alloc, values),
        Func::And => Ok(and(values)),
        Func::Or => Ok(or(values)),
        Func::Not => Ok(not(values)),
        Func::Len => len(alloc, values),
        Func::Upper => upper(alloc, values),
        Func::Lines => lines(alloc, values),
        Func::Line => line(alloc, values),
        Func::Pick => pick(alloc, values),
        Func::If | Func::Indirect | Func::Gather => Ok(Value::Empty),
    }
}

/// What a function makes of the values of its arguments: but for PICK and COUNT, the first bad one.
/// IF, INDIRECT and GATHER do more than look at values: of them this makes Empty.
pub fn call(alloc: Global, func: Func, values: &[Value]) -> Result<Value, NoMemory>
    requires { length values.now < 2 ^ 32 }
    ensures { IfOk result (λ v. v ≡ called func values.now) }
{
    if is_strict(func) {
        if let Some(bad) = first_bad(values) {
            return Ok(Value::Bad(bad));
        }
    }
    call_clean(alloc, func, values)
}
