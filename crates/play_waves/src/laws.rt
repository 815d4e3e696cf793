//! What holds of every wave, and worked waves.

ghost use Rattle.play_waves.specs.Laws.{APassIsDrawnToItsEnd, EachDriveHasItsLetter, EachStepTakesItsCycles};
ghost use Rattle.play_waves.specs.Laws.{EachTdoIsHandedOn, PinsAreToldApart, TdoDrawnIsTheAnswer, TimeGoesOn};
ghost use Rattle.play_waves.specs.Laws.{WhatFailsIsTold, WhatIsDrawnIsTheBoard, WhoFightsIsDrawn};
ghost use Rattle.play_waves.specs.Rows.{WaveRows};

/// Behind any messages what is drawn is the board that took them; and TDO as it is drawn then is the byte with which
/// the board answers `R`, but where it is undriven. Where each device's TDO is drawn, that is the TDI of the next one.
pub fn what_is_drawn_is_played()
    ensures board { WhatIsDrawnIsTheBoard }
    ensures tdo { TdoDrawnIsTheAnswer }
    ensures tdos { EachTdoIsHandedOn }
{}

/// What pins drive is drawn by letters that tell drives apart; so on a net that is drawn as contended, whose drivers are
/// counted, it is drawn who fights: pins at 0 and at 1, or else weak drivers of both.
pub fn who_fights_is_drawn()
    ensures letters { EachDriveHasItsLetter }
    ensures fights { WhoFightsIsDrawn }
{}

/// What pins drive is drawn by names that tell pins apart, whatever names the board has, if none of them has a `-`.
pub fn pins_are_told_apart()
    ensures { PinsAreToldApart }
{}

/// Messages last one after another, up to the last time that is told; a step lasts a period for each of its cycles, and
/// for each message of TRST, and half a period of the low level that closes its cycles.
pub fn each_step_takes_its_cycles()
    ensures messages { TimeGoesOn }
    ensures steps { EachStepTakesItsCycles }
{}

/// A play that stops at its first failure and has none is drawn as one that plays on.
pub fn a_pass_is_drawn_to_its_end()
    ensures { APassIsDrawnToItsEnd }
{}

/// What is told to fail of a turn is what the play's verdict says of it: the first bit that differs where the player
/// stops, and each where it plays on.
pub fn what_fails_is_told()
    ensures { WhatFailsIsTold }
{}

/// What is drawn of these messages, computed from the definitions.
pub fn waves_compute()
    ensures { WaveRows }
{}
