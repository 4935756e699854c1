//! What an opening finds after a stop.

ghost use Rattle.bsp_store.specs.Stops.{OpeningsAreFound, StopsAreFound};

use sqlite::Alter;

/// A stop leaves of a book in tables the rows that it holds; after a commit that answered `Failed` these, or those that the
/// commit was to keep. An opening of what it left finds one of the two, and is refused neither with `OtherVersion` nor
/// with `Damaged`, while the disk is clean and the rows are sound.
///
/// A stop in an opening leaves of a book, of this version or of an earlier one, the same rows, in the tables of the one
/// version or of the other. The opening after it finds these rows, and is not refused either.
pub fn stops_are_found<S: Alter>()
    ensures stops { StopsAreFound S.Store }
    ensures openings { OpeningsAreFound S.Store }
{}
