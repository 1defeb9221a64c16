//! Laws of snapshots, each the contract of a function that does nothing.
ghost use Rattle.den_model.specs.Laws.{WordsAreRead};
ghost use Rattle.den_snapshot.specs.Laws.{MapsGiveTheSnapshot, SnapshotsGiveTheMap};
ghost use Rattle.den_snapshot.specs.Words.{snapshot_in, snapshot_word, FitsSnapshot};

/// Bytes are read as a snapshot exactly where they are its word.
pub fn snapshot_words_are_read()
    ensures { WordsAreRead snapshot_in FitsSnapshot snapshot_word }
{}

/// What a snapshot of a map gives is the map, under the mark that it is taken at.
pub fn snapshots_give_the_map()
    ensures { SnapshotsGiveTheMap }
{}

/// A snapshot is that of the map which it gives, under whatever mark.
pub fn maps_give_the_snapshot()
    ensures { MapsGiveTheSnapshot }
{}
