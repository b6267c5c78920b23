ghost use Rattle.lake_script.specs.Laws.{BytesHaveOneText, PlacesAscend};

/// The places of the statements of every script ascend.
pub fn places_ascend()
    ensures { PlacesAscend }
{}

/// Bytes that are a script without PARALLEL have one text: whatever legal chronicle follows the
/// script, where nothing fails the same is printed. So a run's text doesn't depend on servers,
/// names of blobs or what ran where.
pub fn bytes_have_one_text()
    ensures { BytesHaveOneText }
{}
