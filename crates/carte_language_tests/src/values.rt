//! Values by their printed form.

use carte_value::{Bad, NoMemory, Value};
use std::alloc::Global;

fn bad_of(text: &str) -> Bad {
    match text {
        "#DIV/0!" => Bad::Div0,
        "#VALUE!" => Bad::Value,
        "#REF!" => Bad::Ref,
        "#NUM!" => Bad::Num,
        _ => Bad::Len,
    }
}

/// The value with this printed form, a bad one too.
pub(crate) fn value_of(alloc: Global, text: &str) -> Result<Value, NoMemory> {
    match Value::read(alloc, text)? {
        Some(value) => Ok(value),
        None => Ok(Value::Bad(bad_of(text))),
    }
}
