ghost use Rattle.std.specs.Prelude.{◌≡◌, [], ◌∷◌, true};
ghost use Rattle.lake_model.specs.Allowed.{IsLegal};
ghost use Rattle.lake_model.specs.Following.{Follows};
ghost use Rattle.lake_model.specs.State.{state, view};
ghost use Rattle.lake_model.specs.Examples as example;

/// The definitions on statements that don't run yet: a compaction beside an open snapshot, a
/// checkpoint, a collection, and a COMMIT that fails. The chronicle is legal and follows its
/// script. A compaction of another cell isn't allowed, nor a collection that gives up what an open
/// transaction sees, and a COMMIT that fails ends its transaction.
///
/// The state has the checkpoint. Of its versions the last alone struck marks, those that the
/// compaction replaced. Once the open transaction removes one row of two that have one mark, this
/// mark is worn in what it sees.
pub fn upkeep_example()
    ensures legal { IsLegal true example.entries }
    ensures follows { Follows true example.entries example.steps }
    ensures other_cell { ¬ IsLegal true example.compacting_another_cell }
    ensures open_snapshot { ¬ IsLegal true example.collecting_an_open_snapshot }
    ensures ends { ¬ Follows true example.staying_open example.steps }
    ensures checks { (state example.entries).checks ≡ example.checks }
    ensures struck { example.struck_marks example.entries
        ≡ [] ∷ [] ∷ [] ∷ [] ∷ (example.mark_of_commit 2 ∷ example.mark_of_commit 3 ∷ []) ∷ [] }
    ensures worn { (view (state example.removal) 2).worn ≡ example.mark_of_commit 2 ∷ [] }
{}
