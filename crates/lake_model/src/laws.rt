ghost use Rattle.lake_model.specs.Laws.{ChangesAreParts, FirstCommitterWins, NamesHaveEnded, OneText};
ghost use Rattle.lake_model.specs.Laws.{StatesAreSound, ViewsStay};

/// What legality alone says of the state of a chronicle: which versions, names and open transactions it has, and that
/// tables stay.
pub fn states_are_sound()
    ensures { StatesAreSound }
{}

/// No version has a blob of a transaction that is open, or whose number wasn't given yet.
pub fn names_have_ended()
    ensures { NamesHaveEnded }
{}

/// What one session does leaves the transactions of all others, and what they see.
pub fn views_stay()
    ensures { ViewsStay }
{}

/// What a statement changes is a part of its transaction: only a write changes something, and it counts as a part.
pub fn changes_are_parts()
    ensures { ChangesAreParts }
{}

/// First committer wins: of two commits that wrote one conflict unit, the later one's transaction saw the earlier. So no
/// two transactions that run at once both commit what they wrote there.
pub fn first_committer_wins()
    ensures { FirstCommitterWins }
{}

/// What is printed for a script without PARALLEL follows from the script alone, where nothing fails: neither the names
/// of blobs nor what ran where shows in it.
pub fn one_text()
    ensures { OneText }
{}
