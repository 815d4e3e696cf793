//! What holds of where bits come from, on every chain.
ghost use Rattle.board_reasons.specs.Laws.{ComesFromOrigin, TurningItTurnsThatBit, NoOtherTurnsIt, VerdictTurnsOnIt};
ghost use Rattle.board_reasons.specs.Laws.{CaptureKeepsLevels, ReasonTellsTheBit, TellsTheInstruction};
ghost use Rattle.board_reasons.specs.Laws.{CellsHoldWhatIsTold, TellsWhereItWentIn};
ghost use Rattle.board_reasons.specs.Rows.{ReasonRows};

/// The bit that comes out is the one that stood at its origin.
pub fn each_bit_comes_from_its_origin()
    ensures { ComesFromOrigin }
{}

/// Where the bit at the origin is turned, that bit of what comes out is turned and no other; where any other bit is
/// turned, that bit stays.
pub fn only_its_origin_turns_a_bit()
    ensures turned { TurningItTurnsThatBit }
    ensures others { NoOtherTurnsIt }
{}

/// A wanted bit that did not come out comes out once the bit at its origin is turned, and with no other bit turned.
pub fn only_its_origin_mends_a_failure()
    ensures { VerdictTurnsOnIt }
{}

/// A failing bit of a scan stands where its reason says: the bit there is the opposite of the one that was wanted.
pub fn reasons_tell_the_bit_that_differed()
    ensures { ReasonTellsTheBit }
{}

/// A capture leaves the level of every net as it is.
pub fn captures_keep_levels()
    ensures { CaptureKeepsLevels }
{
    board_model::the_bits_in_force_stay();
}

/// Each cell of a boundary register that has captured holds the bit that is told of it: its core's, its own of the
/// update stage, or what the level of its port's net reads as.
pub fn cells_hold_what_is_told()
    ensures { CellsHoldWhatIsTold }
{
    board_model::the_bits_in_force_stay();
}

/// The instruction that is told to have selected a register is the one in the latch.
pub fn the_instruction_in_the_latch_is_told()
    ensures { TellsTheInstruction }
{}

/// A bit that went in is told by its part and its place there, and stands there.
pub fn bits_are_told_where_they_went_in()
    ensures { TellsWhereItWentIn }
{}

/// The reasons of failing scans of a small board, and their lines.
pub fn reasons_compute()
    ensures { ReasonRows }
{}
