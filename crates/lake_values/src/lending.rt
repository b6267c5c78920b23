ghost use Rattle.std.specs.Prelude.{◌≡◌, ◌↔◌, IsTrue, IfOk};
ghost use Rattle.lake_values.specs.Lending.{owned, IsShort};
ghost use Rattle.lake_values.specs.Order.{value_cmp};
ghost use Rattle.lake_values.specs.declared.values.Value.TheVariants as value;

use crate::fields::short_text;
use crate::{NoMemory, Value, ValueRef};
use std::alloc::Global;
use std::cmp::Ordering;

impl Value {
    /// The value, lent.
    pub fn lend(&self) -> ValueRef<'_>
        ensures value { owned result ≡ self.now }
        ensures short { IsShort result }
    {
        match self {
            Value::Null => ValueRef::Null,
            Value::Int(number) => ValueRef::Int(*number),
            Value::Text(text) => ValueRef::Text(text.as_str()),
        }
    }
}

impl ValueRef<'_> {
    pub fn is_null(self) -> bool
        ensures { IsTrue result ↔ (owned self.entry ≡ value.Null) }
    {
        matches!(self, ValueRef::Null)
    }

    /// An equal value.
    pub fn to_value(self, alloc: Global) -> Result<Value, NoMemory>
        requires { IsShort self }
        ensures { IfOk result (λ value. value ≡ owned self.entry) }
    {
        match self {
            ValueRef::Null => Ok(Value::Null),
            ValueRef::Int(number) => Ok(Value::Int(number)),
            ValueRef::Text(text) => Ok(Value::Text(short_text(alloc, text)?)),
        }
    }
}

/// The order of the values that are lent.
pub fn compare_lent(a: ValueRef<'_>, b: ValueRef<'_>) -> Ordering
    ensures { result ≡ value_cmp (owned a.entry) (owned b.entry) }
{
    match (a, b) {
        (ValueRef::Null, ValueRef::Null) => Ordering::Equal,
        (ValueRef::Int(m), ValueRef::Int(n)) => m.cmp(&n),
        (ValueRef::Text(s), ValueRef::Text(t)) => s.cmp(t),
        (ValueRef::Null, _) | (ValueRef::Int(_), ValueRef::Text(_)) => Ordering::Less,
        (_, ValueRef::Null) | (ValueRef::Text(_), ValueRef::Int(_)) => Ordering::Greater,
    }
}
