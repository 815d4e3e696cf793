//! The headline, over the definitions that the contracts of `accept`, `Board`, `Player` and `Joined` cite.

ghost use Rattle.jt_player.specs.Headline.{DirectPlayMeansWhatTheTextMeans, EveryScheduleMeansWhatTheTextMeans};
ghost use Rattle.jt_player.specs.Headline.{WhatDirectPlaysLeaveIsInUse, WhatEventsLeaveIsInUse, WhatRunsLeaveIsInUse};
ghost use Rattle.jt_player.specs.Headline.{DirectPlayOfEitherKind, EveryScheduleOfEitherKind};
ghost use Rattle.jt_player.specs.Headline.{DirectPlaysPassOrFail, EveryRunEnds, WhatEventsOfEitherKindLeaveIsInUse};

/// For every accepted text, every board that a board file and its descriptions make or that has bare devices, whatever
/// bytes it took before, every room of two pipes and every order of events: a play that ends unlost gives exactly the
/// verdict, and leaves exactly the registers and pin levels, of the register-level meaning from the state after the
/// opening, where each scan captures whole registers, shifts once by its full length and updates.
///
/// So does a play without pipes, which always ends.
pub fn every_schedule_means_what_the_text_means()
    ensures joined { EveryScheduleMeansWhatTheTextMeans }
    ensures directly { DirectPlayMeansWhatTheTextMeans }
{}

/// The same of a player of either kind: one that stops at the first failing step gives the verdict of the meaning, one
/// that plays on all failures of it.
pub fn every_schedule_of_either_kind_means_what_the_text_means()
    ensures joined { EveryScheduleOfEitherKind }
    ensures directly { DirectPlayOfEitherKind }
{}

/// Wherever a play over two pipes breaks off, of a player that stops at the first failure, its board is one that the
/// headline speaks of: so a new play on it means what its own text means.
pub fn what_events_leave_is_in_use()
    ensures { WhatEventsLeaveIsInUse }
{}

/// The same of a player of either kind.
pub fn what_events_of_either_kind_leave_is_in_use()
    ensures { WhatEventsOfEitherKindLeaveIsInUse }
{}

/// So is the board of a direct play, of either kind, and that of a run, of a refused text too.
pub fn what_direct_plays_leave_is_in_use()
    ensures plays { WhatDirectPlaysLeaveIsInUse }
    ensures runs { WhatRunsLeaveIsInUse }
{}

/// A direct play, as by `play_board` and `play_noted`, passes or fails: it is never lost, and no answer is bad.
pub fn direct_plays_pass_or_fail()
    ensures { DirectPlaysPassOrFail }
{}

/// The exit status of `run_play` and `run_play_all`, where they answer one, is 0 of an accepted text that passes, 1 of
/// an accepted text that fails, 2 of a refused text, or 4 where memory ran out.
pub fn every_run_ends()
    ensures { EveryRunEnds }
{}
