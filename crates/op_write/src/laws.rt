ghost use Rattle.op_write.specs.Laws.{SealsWhatIsStaged, VectorLeavesTheRest};

/// What is staged and then sealed is what the attempt writes.
pub fn seals_what_is_staged()
    ensures { SealsWhatIsStaged }
{}

/// A merged vector leaves just the rows that don't match.
pub fn vector_leaves_the_rest()
    ensures { VectorLeavesTheRest }
{}
