//! Every schedule of two bounded pipes between player and board: laws over the definitions that the contracts of both
//! cite.
ghost use Rattle.play_model.specs.AllFailures.{APlayToTheEndMeansAll, EveryScheduleMeansAll, FirstOfAllIsTheFirst};
ghost use Rattle.play_model.specs.AllFailures.{FirstOfAllPlayedIsTheFirst};
ghost use Rattle.play_model.specs.ScheduleSamples.{ConnectionsMustBeOpen};
ghost use Rattle.play_model.specs.ScheduleLaws.{ALoseLoses, ALossNamesTheCommandInWork, ANewPlayMeansFromItsOpening};
ghost use Rattle.play_model.specs.ScheduleLaws.{EveryScheduleIsInsideTheFullPlay};
ghost use Rattle.play_model.specs.ScheduleLaws.{EveryScheduleMeansFromOpening, EveryScheduleOfEveryDescribedBoard};
ghost use Rattle.play_model.specs.ScheduleLaws.{FairDriversEnd, HonestAnswersAreTheFullPlays, LostOnlyByALose};
ghost use Rattle.play_model.specs.ScheduleLaws.{MovingEventsAreBounded, NoOtherVerdictIsGiven, OneByteEachWayEnds};
ghost use Rattle.play_model.specs.ScheduleLaws.{SeveralCallsAreOne, SomethingCanMove, WhatEndsIsTheFullPlay};

/// Whatever events happen, the bytes that the board took, with those in the pipe, are a front part of the full play's,
/// and its answers a front part of the full play's answers. The pipes hold what was sent and not yet taken, and never
/// more than their room. The player sent nothing that its answers did not allow, and the board stands where the bytes
/// it took lead.
pub fn every_schedule_stays_inside_the_full_play()
    ensures { EveryScheduleIsInsideTheFullPlay }
{}

/// Once the board took `Q`, all bytes and answers of the full play went through, and the ending and the board are its.
pub fn what_ends_is_the_full_play()
    ensures { WhatEndsIsTheFullPlay }
{}

/// An ending that is not a loss is the full play's.
pub fn no_other_verdict_is_given()
    ensures { NoOtherVerdictIsGiven }
{}

/// For every legal program, every sound board that has a device, and every schedule of two bounded pipes: a play that
/// ends unlost gives the pass, or the first failing command and bit, and leaves the board at rest in the registers,
/// that the register meaning gives from the state after the opening.
pub fn every_schedule_means_what_the_program_means()
    ensures { EveryScheduleMeansFromOpening }
{}

/// The same for boards as they are described, as they power up or after any bytes, in mid-scan too.
pub fn every_described_board_means_it_too()
    ensures { EveryScheduleOfEveryDescribedBoard }
{}

/// While a play has neither ended nor been lost, the player can send a byte, the board take one, or the player take an
/// answer.
pub fn something_can_move()
    ensures { SomethingCanMove }
{}

/// Over a whole schedule at most twice as many events move something as the full play has bytes, and its answers.
pub fn moving_events_are_bounded()
    ensures { MovingEventsAreBounded }
{}

/// After any events without a loss, as many fair rounds as that end the play. A round is fair if in some order the
/// player may send, the board may take and the player may be answered at least one byte, and nothing is lost.
pub fn fair_drivers_end()
    ensures { FairDriversEnd }
{}

/// The simplest fair driver, one byte each way in turn, comes to the full play's ending.
pub fn one_byte_each_way_ends()
    ensures { OneByteEachWayEnds }
{}

/// A play is lost only by a loss of the connection before the board took `Q`, and stands as it stood then.
pub fn lost_only_by_a_lose()
    ensures { LostOnlyByALose }
{}

/// Each loss of the connection before the board took `Q` loses the play.
pub fn a_lose_loses()
    ensures { ALoseLoses }
{}

/// A lost play names the first command, of those that the play makes, of which a byte was not given out or an answer
/// not taken: 0 until the opening is given out, and the statements plus 1 when only `Q` is left.
pub fn a_loss_names_the_command_in_work()
    ensures { ALossNamesTheCommandInWork }
{}

/// Wherever a play broke off, a new play on its board means what its program means, from its own opening.
pub fn a_new_play_means_from_its_opening()
    ensures { ANewPlayMeansFromItsOpening }
{}

/// A list of events may be cut over several calls.
pub fn several_calls_are_one()
    ensures { SeveralCallsAreOne }
{}

/// Answers that are a front part of a board's answers to the player's bytes for them are a front part of the full
/// play's. So nothing is asked of the order in which a running socket hands on bytes and answers, but that it hands
/// them on as they are.
pub fn honest_answers_are_the_full_plays()
    ensures { HonestAnswersAreTheFullPlays }
{}

/// Of all bits of a program that do not come out, over whole registers, the first is the one that the program fails by.
pub fn the_first_of_all_failures_is_the_first()
    ensures { FirstOfAllIsTheFirst }
{}

/// Edge by edge, on every program and board: a player that plays on finds first what one that stops finds.
pub fn the_first_of_all_played_is_the_first()
    ensures { FirstOfAllPlayedIsTheFirst }
{}

/// A window of no answer or a pipe without room stops a play for good, and one of each does not. Two scans that fail: a
/// player that stops is answered once, one that plays on finds both.
pub fn connections_must_be_open()
    ensures { ConnectionsMustBeOpen }
{}

/// For every legal program and sound board that has a device, a player that plays on finds all failures that the
/// program means over whole registers, and leaves the board at rest where this meaning leaves it.
pub fn a_play_to_the_end_means_all()
    ensures { APlayToTheEndMeansAll }
{}

/// And so over every schedule.
pub fn every_schedule_means_all()
    ensures { EveryScheduleMeansAll }
{}
