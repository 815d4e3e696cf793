//! Laws over the definitions that the player's contracts cite.

ghost use Rattle.play_model.specs.PlayLaws.{EmptyProgramRests, FullPlayIsBothEnds, PlayerGrows, StepsAskForTheirBits};
ghost use Rattle.play_model.specs.PlayLaws.{WhatFollowsAFailureIsNotPlayed};

/// With further answers the player may send what it might before, and perhaps more: whatever window of owed answers.
pub fn the_player_grows_by_answers()
    ensures { PlayerGrows }
{}

/// The full play is what both ends say: the player's messages for its answers, and the board's answers to its messages.
pub fn the_full_play_is_both_ends()
    ensures { FullPlayIsBothEnds }
{}

/// A step asks for as many answers as it wants bits.
pub fn steps_ask_for_their_bits()
    ensures { StepsAskForTheirBits }
{}

/// The empty program leaves every board at rest in RESET, whatever bytes it took before.
pub fn the_empty_program_rests_every_board()
    ensures { EmptyProgramRests }
{}

/// A play that fails under a program is the same, on the same board, under every program that begins with it; and what
/// the program means over whole registers is the same.
pub fn what_follows_a_failure_is_not_played()
    ensures { WhatFollowsAFailureIsNotPlayed }
{}
