ghost use Rattle.std.specs.Prelude.{◌≡◌, ◌↔◌, List};
ghost use Rattle.lake_values.specs.declared.values.Value.{Value as Cell};
ghost use Rattle.sql_model.specs.Listing.{SameBag, listed};
ghost use Rattle.sql_model.specs.declared.bound.Query.{Query as Asked};
ghost use Rattle.sql_model.specs.Query.{Database, SameDatabase, plain};

/// The order in which a database keeps the rows of its tables doesn't matter: a query answers the same rows over every
/// database that has the same rows equally often, or the same refusal.
pub fn same_bags_same_answer()
    ensures { (q : Asked) (db db' : Database) → SameDatabase db db' → plain q db ≡ plain q db' }
{}

/// Two lists have the same rows equally often exactly where they are equal once they are listed in row order.
pub fn same_bag_same_listing()
    ensures { (xs ys : List (List Cell)) → SameBag xs ys ↔ (listed xs ≡ listed ys) }
{}
