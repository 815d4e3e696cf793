//! A player that keeps no answers: it judges each as it comes, and goes as the player that is known by all answers it
//! took.
ghost use Rattle.play_model.specs.StreamSamples.{SamplesCompute};
ghost use Rattle.play_model.specs.StreamLaws.{AnHonestVerdictForAnyWindow, HearingIsTheHistory};
ghost use Rattle.play_model.specs.StreamLaws.{OwedWithinTheWindow};
ghost use Rattle.play_model.specs.StreamLaws.{AnsweringStaysAsked, CallsGoAlike, FreshAgrees, SchedulesCarryOver};
ghost use Rattle.play_model.specs.StreamLaws.{StreamsAgree};

/// What is heard one by one is a function of the history: how many answers, the first that differed, and the first bad
/// byte.
pub fn hearing_is_the_history()
    ensures { HearingIsTheHistory }
{}

/// For every history in which no answer was taken that was not asked for, the bytes that wait, the answers that are
/// owed, the ending, and the command in work are the same.
pub fn streams_agree()
    ensures { StreamsAgree }
{}

/// Such are all histories that calls lead to: a fresh one, and what follows as bytes are given out and answers taken.
pub fn answering_stays_asked()
    ensures { AnsweringStaysAsked }
{}

/// A fresh player is the stream of a fresh history.
pub fn fresh_agrees()
    ensures { FreshAgrees }
{}

/// Over two pipes of any room, any window, and whatever events happen, it goes as the player of the laws of every
/// schedule: so all of these hold of it.
pub fn schedules_carry_over()
    ensures { SchedulesCarryOver }
{}

/// Calls that give out bytes and take answers lead from the stream of a history to the stream of the longer history.
pub fn calls_go_alike()
    ensures { CallsGoAlike }
{}

/// Two scans that fail on a board, computed: one that stops keeps the first, one that plays on both.
pub fn samples_compute()
    ensures { SamplesCompute }
{}

/// Whatever the state, no more answers are owed than the window.
pub fn owed_within_the_window()
    ensures { OwedWithinTheWindow }
{}

/// Over a link that hands on bytes and answers as they are, a player that stops and has ended has the full play's
/// verdict, whatever the window.
pub fn an_honest_verdict_for_any_window()
    ensures { AnHonestVerdictForAnyWindow }
{}
