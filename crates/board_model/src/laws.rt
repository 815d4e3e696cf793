//! Laws over the definitions that the board's contracts cite: what they say of every chain, proved once.

ghost use Rattle.board_model.specs.Laws.{BareBoardsAreSound, BytesKeepRegistersSound, DefaultPathsSettleAndArrive};
ghost use Rattle.board_model.specs.Following.{ConstantsInForce, EveryStringHoldsInForce, LoweredNumbersShowNoLoop};
ghost use Rattle.board_model.specs.Following.{LoweringStringsAreOnNoCircle, NoLoopIsNoCircle, NoCircleIsNoLoop};
ghost use Rattle.board_model.specs.Following.{OneRoundMoreChangesNothing, OnlyInForce, BitsInForceStay};
ghost use Rattle.board_model.specs.Following.{RisingStringsAreInOrder, RisingTargetsAreInOrder};
ghost use Rattle.board_model.specs.Following.{StringsInOrderMakeTheBitsInForce};
ghost use Rattle.board_model.specs.Laws.{FiveOnesRest, OpeningRests, OpeningSettles, SoundDescriptionsPowerUpSound};

/// Five cycles of TCK with TMS 1 and TRST released bring every board to rest in RESET in all devices, whatever bytes it
/// took before (IEEE Std 1149.1-2001, 6.1.1).
pub fn five_ones_reset_every_board()
    ensures { FiveOnesRest }
{}

/// The opening of a play brings every board, in mid-scan too, to rest in RESET with TRST released.
pub fn the_opening_rests_every_board()
    ensures { OpeningRests }
{}

/// From rest the opening makes the pending update and resets.
pub fn the_opening_settles_and_resets()
    ensures { OpeningSettles }
{}

/// From rest, the bytes of each default path make the pending update and then what its last state does on arrival:
/// a reset, nothing, or a capture.
pub fn default_paths_settle_and_arrive()
    ensures { DefaultPathsSettleAndArrive }
{}

/// Whatever bytes a board takes, each register that can stand between TDI and TDO keeps at least one bit, the edges of
/// a scan that broke off in the middle and the assertion of TRST included (IEEE Std 1149.1-2001, clauses 7 to 12).
pub fn bytes_keep_registers_sound()
    ensures { BytesKeepRegistersSound }
{}

/// A device whose description is sound powers up sound: its instruction register, its capture, its boundary, its codes
/// and the user registers of its own instructions have at least one bit each.
pub fn sound_descriptions_power_up_sound()
    ensures { SoundDescriptionsPowerUpSound }
{}

/// A board of bare devices is sound.
pub fn bare_boards_are_sound()
    ensures { BareBoardsAreSound }
{}

/// On a board without strings the cores' constants are in force, and each device is told its own.
pub fn constants_stand_without_strings()
    ensures { ConstantsInForce }
{}

/// Where no net depends on itself by strings, one round more changes nothing.
pub fn rounds_settle()
    ensures { OneRoundMoreChangesNothing }
{}

/// There every string holds under the core bits in force.
pub fn every_string_holds_in_force()
    ensures { EveryStringHoldsInForce }
{}

/// There the core bits in force are the only ones under which every string holds.
pub fn only_the_bits_in_force_hold()
    ensures { OnlyInForce }
{}

/// Numbers of nets that every string lowers show that no net depends on itself.
pub fn lowered_numbers_show_no_loop()
    ensures { LoweredNumbersShowNoLoop }
{}

/// Where no string raises the numbers of nets, a string that lowers them is on no circle.
pub fn lowering_strings_are_on_no_circle()
    ensures { LoweringStringsAreOnNoCircle }
{}

/// Where pins are on one net each and no string is for the control of another cell, no circle of targets and sources is
/// no circle.
pub fn no_loop_of_strings_is_no_circle()
    ensures { NoLoopIsNoCircle }
{}

/// On a board without circles all strings, put one after another each behind those that its source's net depends on,
/// make the core bits in force, whatever was held.
pub fn strings_in_order_make_the_bits_in_force()
    ensures { StringsInOrderMakeTheBitsInForce }
{}

/// What changes no pin's drive, as a capture or a shift does, leaves levels and core bits in force as they are.
pub fn the_bits_in_force_stay()
    ensures { BitsInForceStay }
{}

/// Strings by rising keys, as the numbers of their targets' nets, stand each behind those that its source's net
/// depends on.
pub fn rising_strings_are_in_order()
    ensures { RisingStringsAreInOrder }
{}

/// Where no net depends on itself, no targets and sources of strings make a circle.
pub fn no_circle_is_no_loop_of_strings()
    ensures { NoCircleIsNoLoop }
{}

/// Strings that lower the numbers of nets, by rising numbers of their targets' nets, stand each behind those that its
/// source's net depends on.
pub fn rising_targets_are_in_order()
    ensures { RisingTargetsAreInOrder }
{}
