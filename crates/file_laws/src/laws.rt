ghost use Rattle.std.specs.Prelude.{◌≡◌, [], ◌∷◌, true, filter, map};
ghost use Rattle.lake_model.specs.Allowed.{IsLegal};
ghost use Rattle.lake_model.specs.State.{state, version_at, view};
ghost use Rattle.sql_model.specs.Versions.{marked_rows_of};
ghost use Rattle.write_set_catalog.specs.Names.{has_name};
ghost use Rattle.file_laws.specs.Collector.{names_at};
ghost use Rattle.file_laws.specs.ReaderExample as reader;
ghost use Rattle.file_laws.specs.Example as example;
ghost use Rattle.file_laws.specs.Kept.{IsKept, Tells, shown_row};
ghost use Rattle.file_laws.specs.Stands.{files_at};
ghost use Rattle.file_laws.specs.Laws.{KeepsWhatIsFree, Rebases, StandsAfterAddition};
ghost use Rattle.file_laws.specs.Laws.{StandsAfterCommit, StandsAfterRemoval};
ghost use Rattle.file_laws.specs.BlobLaws.{StandsOverMoreBlobs};
ghost use Rattle.file_laws.specs.StatementLaws.{SeenAfterStatement};
ghost use Rattle.file_laws.specs.Pends.{PendsAsSeen};
ghost use Rattle.file_laws.specs.MergeLaw.{StandsAfterMerge};
ghost use Rattle.file_laws.specs.NameLaws.{NamesAreByRows};
ghost use Rattle.file_laws.specs.StandsLaws.{ChecksGiveFiles, ChecksStay, FreeIfNoConflict};
ghost use Rattle.file_laws.specs.StandsLaws.{NumbersCommitted, StandsBegan, StandsCollected};
ghost use Rattle.file_laws.specs.StandsLaws.{StandsCommitted, StandsCreated, StandsEnded};
ghost use Rattle.file_laws.specs.StandsLaws.{StandsStopped};
ghost use Rattle.file_laws.specs.RanLaw.{StandsRan};
ghost use Rattle.file_laws.specs.KeptLaws.{BlobsAreHeld, KeptAsItIs, KeptBegan, KeptCheck};
ghost use Rattle.file_laws.specs.KeptLaws.{KeptCollected, KeptCommit, KeptCompacted, KeptDrops};
ghost use Rattle.file_laws.specs.KeptLaws.{KeptEmpty, KeptOverBlobs, KeptQuery, KeptTells};
ghost use Rattle.file_laws.specs.KeptLaws.{KeptWrite};
ghost use Rattle.file_laws.specs.Noting.{NotedAsItIs, NotedBegan, NotedCommit, NotedEmpty};
ghost use Rattle.file_laws.specs.Noting.{NotedQuery, NotedWrite, RowsAtLast};

/// What a transaction's items make of the files of its snapshot, they make of the files of a later
/// version in which the files that they name are as they were.
pub fn rebases()
    ensures { Rebases }
{}

/// Where no commit after a transaction's snapshot wrote a unit that the transaction writes, the
/// files that its items name are as they were.
pub fn keeps_what_is_free()
    ensures { KeepsWhatIsFree }
{}

/// A transaction's items, replayed as the next commit over the last version's files, give files
/// that stand for the version after its change.
pub fn stands_after_commit()
    ensures { StandsAfterCommit }
{}

/// The items of a DELETE or an UPDATE leave files that stand for the rows that it leaves.
pub fn stands_after_removal()
    ensures { StandsAfterRemoval }
{}

/// A file of new rows stands for these.
pub fn stands_after_addition()
    ensures { StandsAfterAddition }
{}

/// The items of a further statement, behind those of its transaction, are what the transaction has
/// changed then.
pub fn seen_after_statement()
    ensures { SeenAfterStatement }
{}

/// A further statement of a transaction takes what it removes from what the transaction sees, and
/// adds what it adds.
pub fn pends_as_seen()
    ensures { PendsAsSeen }
{}

/// A merged file stands for the rows that were left of the files that it replaces.
pub fn stands_after_merge()
    ensures { StandsAfterMerge }
{}

/// Further blobs change nothing for files whose blobs are there.
pub fn stands_over_more_blobs()
    ensures { StandsOverMoreBlobs }
{}

/// The names of a table's files are those that it has by the rows of the catalogue.
pub fn names_are_by_rows()
    ensures { NamesAreByRows }
{}

/// A new table, which has no row, has no file: the catalogue stands after it too.
pub fn stands_created()
    ensures { StandsCreated }
{}

/// A transaction that begins has no items: the catalogue stands after it too.
pub fn stands_began()
    ensures { StandsBegan }
{}

/// The catalogue stands after the end of a transaction, by COMMIT, ROLLBACK or a conflict, too.
pub fn stands_ended()
    ensures { StandsEnded }
{}

/// The catalogue stands after a statement that was refused or failed, too.
pub fn stands_stopped()
    ensures { StandsStopped }
{}

/// The catalogue stands above a floor that rises and stays at or below each open snapshot, too.
pub fn stands_collected()
    ensures { StandsCollected }
{}

/// A commit keeps it that the catalogue stands for the chronicle.
pub fn stands_committed()
    ensures { StandsCommitted }
{}

/// A statement that ran keeps it that the catalogue stands.
pub fn stands_ran()
    ensures { StandsRan }
{}

/// The files of a version are the same from nothing and from the newest checkpoint on.
pub fn checks_give_files()
    ensures { ChecksGiveFiles }
{}

/// Later commits leave what checkpoints have.
pub fn checks_stay()
    ensures { ChecksStay }
{}

/// A commit keeps the numbers of transactions apart.
pub fn numbers_committed()
    ensures { NumbersCommitted }
{}

/// What the catalogue's rows say of conflicts is enough for a commit.
pub fn free_if_no_conflict()
    ensures { FreeIfNoConflict }
{}

/// More blobs hold more, and fewer all but what is given up.
pub fn blobs_are_held()
    ensures { BlobsAreHeld }
{}

/// A new table, an end, a conflict, a refusal and a failure leave the book right as it is.
pub fn kept_as_it_is()
    ensures { KeptAsItIs }
{}

/// A transaction that begins has no items.
pub fn kept_began()
    ensures { KeptBegan }
{}

/// A query writes nothing.
pub fn kept_query()
    ensures { KeptQuery }
{}

/// Further blobs leave the book right.
pub fn kept_over_blobs()
    ensures { KeptOverBlobs }
{}

/// A write gives its transaction items.
pub fn kept_write()
    ensures { KeptWrite }
{}

/// A commit gives the book a row for each table of which its transaction has items.
pub fn kept_commit()
    ensures { KeptCommit }
{}

/// A compaction puts one file in place of those of each of its cells.
pub fn kept_compacted()
    ensures { KeptCompacted }
{}

/// What the rows of a commit or a compaction drop, the last version has.
pub fn kept_drops()
    ensures { KeptDrops }
{}

/// A checkpoint has the files of its version.
pub fn kept_check()
    ensures { KeptCheck }
{}

/// The blobs that a collection gives up may go.
pub fn kept_collected()
    ensures { KeptCollected }
{}

/// At first nothing is noted, whatever the ports tell. So it is with the laws that follow.
pub fn noted_empty()
    ensures { NotedEmpty }
{}

/// A new table, an end, a conflict, a refusal and a failure leave what is noted.
pub fn noted_as_it_is()
    ensures { NotedAsItIs }
{}

/// A transaction begins without items.
pub fn noted_began()
    ensures { NotedBegan }
{}

/// A query writes nothing.
pub fn noted_query()
    ensures { NotedQuery }
{}

/// A write gives its transaction the items of its part.
pub fn noted_write()
    ensures { NotedWrite }
{}

/// A commit gives the catalogue a row for each table that it changed.
pub fn noted_commit()
    ensures { NotedCommit }
{}

/// Rows of a commit that were made for its snapshot are right at the last version, where no commit
/// between wrote what it wrote.
pub fn rows_at_last()
    ensures { RowsAtLast }
{}

/// What a kept book tells of the versions, to a collector, and of each commit.
pub fn kept_tells()
    ensures { KeptTells }
{}

/// At first nothing is kept.
pub fn kept_empty()
    ensures { KeptEmpty }
{}

/// The definitions on a chronicle: two transactions delete from one table, of which the first
/// commits and the second conflicts. Then a checkpoint, a collection, a further row and a
/// compaction.
pub fn kept_example()
    ensures kept { IsKept example.book18 example.entries18 }
    ensures tells { Tells example.book9 example.entries10 }
    ensures left { files_at example.book9.rows 3 example.table ≡ example.left_file ∷ [] }
    ensures merged { files_at example.book18.rows 5 example.table ≡ example.file_after ∷ [] }
{}

/// The definitions on a chronicle: a transaction reads beside a compaction and a collection, which
/// leave what it sees and its files; when it has ended, a collection gives up those files.
pub fn reader_example()
    ensures legal { IsLegal true reader.afterwards }
    ensures sees { marked_rows_of example.table (view (state reader.beside) 1).tables
        ≡ reader.row_of 2 ∷ reader.row_of 3 ∷ [] }
    ensures sees_files { files_at reader.rows 3 example.table
        ≡ reader.file_row 2 reader.first 1 ∷ reader.file_row 3 reader.second 1 ∷ [] }
    ensures sees_names { names_at (state reader.beside) 3 ≡ reader.first ∷ reader.second ∷ [] }
    ensures floor_beside { (state reader.beside).floor ≡ 3 }
    ensures newest { marked_rows_of example.table (version_at (state reader.beside) 4).tables
        ≡ reader.row_of 4 ∷ reader.row_of 4 ∷ [] }
    ensures newest_files { files_at reader.rows 4 example.table
        ≡ reader.file_row 4 reader.merged 2 ∷ [] }
    ensures newest_names { names_at (state reader.beside) 4 ≡ reader.merged ∷ [] }
    ensures floor { (state reader.afterwards).floor ≡ 4 }
    ensures by_rows { filter (has_name (map shown_row reader.rows) 3) reader.all_files
        ≡ reader.first ∷ reader.second ∷ [] }
    ensures newest_by_rows { filter (has_name (map shown_row reader.rows) 4) reader.all_files
        ≡ reader.merged ∷ [] }
{}
