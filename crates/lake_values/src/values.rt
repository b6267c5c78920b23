ghost use Rattle.std.specs.Prelude.{◌≡◌, IfOk};

use crate::{NoMemory, Text};

/// NULL, a whole number of 64 bits, or a text.
#[derive(Debug, Drop)]
pub enum Value {
    Null,
    Int(i64),
    Text(Text),
}

/// A value lent by what keeps it.
#[derive(Clone, Copy, Debug)]
pub enum ValueRef<'a> {
    Null,
    Int(i64),
    Text(&'a str),
}

impl Value {
    /// An equal value.
    pub fn copy(&self) -> Result<Value, NoMemory>
        ensures { IfOk result (λ copy. copy ≡ self.now) }
    {
        match self {
            Value::Null => Ok(Value::Null),
            Value::Int(number) => Ok(Value::Int(*number)),
            Value::Text(text) => Ok(Value::Text(text.copy()?)),
        }
    }
}
