//! Laws of the whole: player and board joined by two bounded pipes.
ghost use Rattle.play_pipes.specs.Holding.{WhatIsJoinedHoldsWhatIsOwed};
ghost use Rattle.play_pipes.specs.Inside.{ALossNamesWhatIsInWork, FewEventsMoveSomething, OnlyALoseLoses};
ghost use Rattle.play_pipes.specs.Inside.{SomethingCanMoveUntilItIsOver, WhatIsJoinedStaysInsideTheFullPlay};
ghost use Rattle.play_pipes.specs.Laws.{WhatIsFoundFirstIsWhatStops, WhatIsJoinedEndsAsTheFullPlay};
ghost use Rattle.play_pipes.specs.Laws.{WhatIsJoinedMeansTheProgram, WhatPlaysOnMeansTheWholeProgram};

/// Once the board took `Q`, the play was not lost, and it has the full play's failures, ending and board, whatever the
/// order of events and the room of the pipes.
pub fn what_is_joined_ends_as_the_full_play()
    ensures { WhatIsJoinedEndsAsTheFullPlay }
{}

/// The headline: every legal program, every sound board, every schedule of two bounded pipes. A play that ends unlost
/// gives exactly the verdict, and leaves exactly the registers and pin levels, of the register-level meaning.
pub fn what_is_joined_means_the_program()
    ensures { WhatIsJoinedMeansTheProgram }
{}

/// The headline of a player that plays on: a play to the end that ends unlost has found exactly the failures of the
/// register-level meaning of the whole program, all of them, ends by the first, and leaves the board where it does.
pub fn what_plays_on_means_the_whole_program()
    ensures { WhatPlaysOnMeansTheWholeProgram }
{}

/// What a play to the end finds first is what one that stops finds, on every program, board and schedule.
pub fn what_is_found_first_is_what_stops()
    ensures { WhatIsFoundFirstIsWhatStops }
{}

/// After any events the bytes that the board took, with those in the pipe, are a front part of the full play's, and its
/// answers a front part of the full play's answers: so no verdict is given that the full play would not give. The pipes
/// hold exactly what was sent and not yet taken.
pub fn what_is_joined_stays_inside_the_full_play()
    ensures { WhatIsJoinedStaysInsideTheFullPlay }
{}

/// The down pipe holds bytes of the protocol and the up pipe answers `0` and `1`; as many answers are owed as are asked
/// for in the one and stand in the other; and `Q` stands last in the down pipe from when it is given out until the
/// board takes it.
pub fn what_is_joined_holds_what_is_owed()
    ensures { WhatIsJoinedHoldsWhatIsOwed }
{}

/// While a play has neither ended nor been lost, an event that puts, serves or takes one byte moves it. So `finish`
/// always has something to do.
pub fn something_can_move_until_it_is_over()
    ensures { SomethingCanMoveUntilItIsOver }
{}

/// Over all calls of `run`, no more events move something than twice the full play's bytes, and its answers.
pub fn few_events_move_something()
    ensures { FewEventsMoveSomething }
{}

/// A play is lost only by a loss of the connection before the board took `Q`, and stands as it stood then.
pub fn only_a_lose_loses()
    ensures { OnlyALoseLoses }
{}

/// A play that was lost names the command in work: 0 until the opening is given out; then the first step that the play
/// makes whose bytes are not all given out or whose answers are not all taken; with only `Q` left the statements plus
/// 1.
pub fn a_loss_names_what_is_in_work()
    ensures { ALossNamesWhatIsInWork }
{}
