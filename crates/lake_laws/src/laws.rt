ghost use Rattle.lake_laws.specs.Laws.{CommitIsAllowed, LegalMore, StandsBegan, StandsCommitted};
ghost use Rattle.lake_laws.specs.Laws.{StandsCreated, StandsEmpty, StandsEnded, StandsForConflicts};
ghost use Rattle.lake_laws.specs.Laws.{StandsRead, StandsStopped, StandsWrote};
ghost use Rattle.std.specs.Prelude.{◌≡◌, [], ◌∷◌, ◌++◌};
ghost use Rattle.deletion_vector.specs.Spelling.{vector_spelling};
ghost use Rattle.lake_laws.specs.Books.{gone_told};
ghost use Rattle.lake_laws.specs.Chronicles.{own_items};
ghost use Rattle.lake_laws.specs.Example as example;

/// A legal chronicle with an entry that is allowed is legal.
pub fn legal_more()
    ensures { LegalMore }
{}

/// A lake without entries stands.
pub fn stands_empty()
    ensures { StandsEmpty }
{}

/// A new table is the next version's.
pub fn stands_created()
    ensures { StandsCreated }
{}

/// A transaction that begins is open.
pub fn stands_began()
    ensures { StandsBegan }
{}

/// A refusal or a failure leaves the catalogue, where the session has a transaction as before.
pub fn stands_stopped()
    ensures { StandsStopped }
{}

/// A transaction that ended is no longer open.
pub fn stands_ended()
    ensures { StandsEnded }
{}

/// A query leaves the catalogue.
pub fn stands_read()
    ensures { StandsRead }
{}

/// A write gives the catalogue the blobs that its tasks wrote.
pub fn stands_wrote()
    ensures { StandsWrote }
{}

/// The catalogue finds the conflicts that the chronicle has.
pub fn stands_for_conflicts()
    ensures { StandsForConflicts }
{}

/// A commit with the rows of its items is allowed, where nothing conflicts.
pub fn commit_is_allowed()
    ensures { CommitIsAllowed }
{}

/// A commit gives the catalogue its rows, and ends its transaction.
pub fn stands_committed()
    ensures { StandsCommitted }
{}

/// The definitions on a worked chronicle: what a transaction wrote in two parts is its own until
/// its session begins another, and the bytes of a vector tell its positions.
pub fn lake_example()
    ensures own { own_items example.writing 1 ≡ example.add 1 ∷ example.add 2 ∷ [] }
    ensures other { own_items example.writing 2 ≡ [] }
    ensures anew { own_items (example.writing ++ example.anew) 1 ≡ [] }
    ensures told { gone_told (vector_spelling (1 ∷ 3 ∷ [])) ≡ 1 ∷ 3 ∷ [] }
    ensures not_told { gone_told [] ≡ [] }
{}
