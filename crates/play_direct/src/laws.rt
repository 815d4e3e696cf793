//! What holds of every text under any limits.
ghost use Rattle.play_direct.specs.Within.{AcceptedLiesWithin, EarlierTextsAreAccepted, LargerLimitsAcceptMore};
ghost use Rattle.play_direct.specs.Within.{WhatLiesWithinIsAccepted};

/// A text that is accepted within some limits is accepted within larger ones, with the same program, each that the
/// earlier limits accepted too. What is accepted lies within its limits: its bytes, its statements and their numbers,
/// and the steps of its program; and a text that is accepted within some limits and lies within others is accepted
/// within those, with the same program.
pub fn texts_stay_accepted_within_larger_limits()
    ensures larger { LargerLimitsAcceptMore }
    ensures within { AcceptedLiesWithin }
    ensures kept { WhatLiesWithinIsAccepted }
    ensures earlier { EarlierTextsAreAccepted }
{}
