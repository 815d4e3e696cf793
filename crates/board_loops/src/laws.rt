//! What holds of boards without strings.
ghost use Rattle.board_loops.specs.Depending.{NoLoopWithoutStrings};

/// On a board without strings nothing is on a loop.
pub fn no_loop_without_strings()
    ensures { NoLoopWithoutStrings }
{}
