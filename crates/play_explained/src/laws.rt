//! What holds of the reasons of every play.
ghost use Rattle.play_explained.specs.Laws.{EachListedBitHasItsReason, EveryFailureIsExplained, NothingElseIsTold};
ghost use Rattle.play_explained.specs.Laws.{PartsAreCalledAlike, ReasonsAloneAreAdded};
ghost use Rattle.play_explained.specs.Rows.{EndedRows};

/// The bits that are explained are those that fail, in the same order; and without what is explained the lines are
/// those of a play that explains nothing.
pub fn every_failure_is_explained()
    ensures failures { EveryFailureIsExplained }
    ensures lines { NothingElseIsTold }
{}

/// Of every text: behind the line of each failing bit stands where its statement starts and why it failed, behind that
/// of a play that was lost or got a bad answer where that statement starts, and nothing else is told that a play
/// without reasons does not tell.
pub fn reasons_alone_are_added()
    ensures { ReasonsAloneAreAdded }
{}

/// Where the board on which reasons are looked for stands as the one that is played on did, as two boards of the same
/// files do, each failing bit that is listed has its own reason.
pub fn each_listed_bit_has_its_reason()
    ensures { EachListedBitHasItsReason }
{}

/// The line of where a bit came from calls the parts of a vector as that of a failing bit does.
pub fn parts_are_called_alike()
    ensures { PartsAreCalledAlike }
{}

/// The lines of plays that ended without a verdict.
pub fn ended_lines_compute()
    ensures { EndedRows }
{}
