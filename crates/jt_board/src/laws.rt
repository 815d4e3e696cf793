//! Laws of the devices of boards, and of boards in use.

ghost use Rattle.jt_board.specs.Laws.{EveryBoardInUseIsSound, EveryDeviceReadIsFormed};
ghost use Rattle.jt_board.specs.Strings.{EveryBoardInUseHasItsStrings};
ghost use Rattle.jt_board.specs.Within.{EarlierBoardsAreMade, LargerLimitsMakeTheSame, WhatLiesWithinIsTheSame};

/// Every device that a text says has what a chip asks of it: instructions and a boundary register of one bit at least,
/// a capture and a reset latch as long as instructions, codes of 32 bits, and for each own instruction of a user
/// register that register, of one bit at least and as long as what is captured there.
pub fn every_device_read_is_formed()
    ensures { EveryDeviceReadIsFormed }
{}

/// Every board that a board file and its descriptions make, or that has 1 to 256 bare devices, has after any bytes what
/// the laws of plays ask of it: 1 to 256 devices, of which each register that an instruction can select has a bit.
pub fn every_board_in_use_is_sound()
    ensures { EveryBoardInUseIsSound }
{}

/// Of every such board, after any bytes: no net depends on itself by strings of `follow`, whatever the instructions
/// are. Every string holds under the core bits in force, each port bit seeing its net under these same bits, and under
/// no others.
pub fn every_string_of_a_board_in_use_holds()
    ensures { EveryBoardInUseHasItsStrings }
{}

/// A board that a board file and its descriptions make within some limits is made the same within larger ones, each
/// that the earlier limits made too; and one that is made within some limits is made the same within others, where it
/// and the descriptions that the file names lie within those.
pub fn boards_stay_within_larger_limits()
    ensures larger { LargerLimitsMakeTheSame }
    ensures kept { WhatLiesWithinIsTheSame }
    ensures earlier { EarlierBoardsAreMade }
{}
