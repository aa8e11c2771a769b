ghost use Rattle.std.specs.Prelude.{◌≡◌, IfOk};

use crate::{NoMemory, Text};
use std::alloc::Global;

/// What went wrong in a formula. All but `Len` have Excel's names.
#[derive(Clone, Copy, Debug, PartialEq, Eq)]
pub enum Bad {
    /// A division by zero.
    Div0,
    /// An operand of the wrong kind, or a line that isn't there.
    Value,
    /// A text that names no key.
    Ref,
    /// A number outside i64.
    Num,
    /// A text of more than 65,536 bytes.
    Len,
}

/// What a key has.
#[derive(Debug, Drop)]
pub enum Value {
    Empty,
    Number(i64),
    Text(Text),
    Bad(Bad),
}

impl Value {
    /// The same value. A text is shared with the copy.
    pub fn copy(&self, alloc: Global) -> Result<Value, NoMemory>
        ensures { IfOk result (λ v. v ≡ self.now) }
    {
        match self {
            Value::Empty => Ok(Value::Empty),
            Value::Number(number) => Ok(Value::Number(*number)),
            Value::Bad(bad) => Ok(Value::Bad(*bad)),
            Value::Text(text) => Ok(Value::Text(text.copy(alloc)?)),
        }
    }
}
