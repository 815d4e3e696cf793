//! What holds of board files.
ghost use Rattle.board_file.specs.Fits.{NoStringsWithoutFollow};
ghost use Rattle.board_file.specs.Within.{MadeIsWithin, WhatLiesWithinIsMade};

/// A board file in which no device has the key `follow` makes a board without strings.
pub fn no_strings_without_follow()
    ensures { NoStringsWithoutFollow }
{}

/// Which board a table makes hangs on the limits only by whether its devices and nets, and the descriptions that it
/// names, lie within them: its devices and nets do, and a board that is made within some limits is made within others
/// that it lies within, where those read the same from the descriptions.
pub fn boards_are_limited()
    ensures within { MadeIsWithin }
    ensures kept { WhatLiesWithinIsMade }
{}
