ghost use Rattle.std.specs.Prelude.{◌≡◌};
ghost use Rattle.lake_values.specs.Order.{value_cmp, rank_of};

use crate::Value;
use std::cmp::Ordering;

/// The order of values: NULL, then the numbers, then the texts by their bytes.
pub fn compare_values(a: &Value, b: &Value) -> Ordering
    ensures { result ≡ value_cmp a.now b.now }
{
    match (a, b) {
        (Value::Int(left), Value::Int(right)) => left.cmp(right),
        (Value::Text(left), Value::Text(right)) => {
            left.as_str().as_bytes().cmp(right.as_str().as_bytes())
        }
        _ => rank(a).cmp(&rank(b)),
    }
}

fn rank(value: &Value) -> u32
    ensures { result ≡ rank_of value.now }
{
    match value {
        Value::Null => 0,
        Value::Int(_) => 1,
        Value::Text(_) => 2,
    }
}

impl PartialEq for Value {
    ghost use Rattle.std.specs.Ordering.{eq_by_cmp};
    ghost use Rattle.lake_values.specs.Order.{value_cmp, value_eq_equiv};
    ghost use Rattle.std.specs.Cmp.{partial_equiv_from_equiv};

    ghost eq = { eq_by_cmp value_cmp };

    ghost laws = { partial_equiv_from_equiv value_eq_equiv };

    fn eq(&self, other: &Value) -> bool {
        compare_values(self, other) == Ordering::Equal
    }
}

impl Eq for Value {
    ghost use Rattle.lake_values.specs.Order.{value_eq_equiv};

    ghost laws = { value_eq_equiv };
}

impl PartialOrd for Value {
    ghost use Rattle.std.specs.Ordering.{as_partial_cmp};
    ghost use Rattle.lake_values.specs.Order.{value_cmp, value_partial_order};

    ghost partial_cmp = { as_partial_cmp value_cmp };

    ghost laws = { value_partial_order };

    fn partial_cmp(&self, other: &Value) -> Option<Ordering> {
        Some(compare_values(self, other))
    }
}

impl Ord for Value {
    ghost use Rattle.std.specs.Prelude.{refl};
    ghost use Rattle.lake_values.specs.Order.{value_cmp, value_cmp_total};

    ghost cmp = { value_cmp };

    ghost total = { value_cmp_total };

    ghost matches_partial_cmp = { λ _ _. refl };

    ghost matches_eq = { λ _ _. refl };

    fn cmp(&self, other: &Value) -> Ordering {
        compare_values(self, other)
    }
}
