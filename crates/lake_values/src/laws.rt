ghost use Rattle.std.specs.Prelude.{◌≡◌};
ghost use Rattle.std.specs.Cmp.{IsTotalOrder};
ghost use Rattle.std.specs.declared.cmp.Ordering.TheVariants.{Equal};
ghost use Rattle.lake_values.specs.declared.names.Kind.{Kind as BlobKind};
ghost use Rattle.lake_values.specs.declared.names.Name.{Name as BlobName};
ghost use Rattle.lake_values.specs.contracts.names.NameOrd.TheImpl as order;
ghost use Rattle.lake_values.specs.Names.{name_cmp};
ghost use Rattle.lake_values.specs.Spelling.{text_spelling, value_spelling, name_spelling, IsText, IsValue, IsName, NoneBegins};

/// No spelling of a text begins another, so what was written is read again, whatever follows it.
pub fn one_text_spelling()
    ensures { NoneBegins IsText text_spelling }
{}

/// No spelling of a value begins another, so what was written is read again, whatever follows it.
pub fn one_value_spelling()
    ensures { NoneBegins IsValue value_spelling }
{}

/// No spelling of a name of one kind begins another, so what was written is read again, whatever follows it.
pub fn one_name_spelling()
    ensures { (kind : BlobKind) → NoneBegins (IsName kind) name_spelling }
{}

/// `<`, `cmp` and sorting put names of blobs in the order that chronicles use, which is total.
pub fn names_in_order()
    ensures same { (m n : BlobName) → order.ghosts.cmp m n ≡ name_cmp m n }
    ensures total { IsTotalOrder name_cmp }
    ensures told_apart { (m n : BlobName) → name_cmp m n ≡ Equal → m ≡ n }
{}
