ghost use Rattle.std.specs.Prelude.{◌≡◌, ℕ, ◌&&◌, List, length};
ghost use Rattle.std.specs.List.{flat_map, list_all};
ghost use Rattle.lake_values.specs.declared.values.Value.{Value as Member};
ghost use Rattle.sql_model.specs.declared.bound.BoundAgg.{BoundAgg as Aggregate};
ghost use Rattle.sql_model.specs.Groups.{groups, groups_fit};
ghost use Rattle.op_aggregate.specs.Fits.{arguments_fit, finals_fit};
ghost use Rattle.op_aggregate.specs.Partials.{partial_rows, finished_rows};

/// What the parts of the rows keep, finished, is the groups of all rows, in the order of their first rows. All groups
/// fit exactly where the arguments fit on each part and the counts and sums made of the parts do.
pub fn partials_are_groups()
    ensures groups { (columns : List ℕ) (aggs : List Aggregate) (parts : List (List (List Member))) → finished_rows (length columns) aggs (flat_map (partial_rows columns aggs) parts) ≡ groups columns aggs (flat_map (λ part. part) parts) }
    ensures fits { (columns : List ℕ) (aggs : List Aggregate) (parts : List (List (List Member))) → groups_fit columns aggs (flat_map (λ part. part) parts) ≡ (list_all (arguments_fit aggs) parts && finals_fit (length columns) aggs (flat_map (partial_rows columns aggs) parts)) }
{}
