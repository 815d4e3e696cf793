//! What holds of every statement and of every text.
ghost use Rattle.svf_parse.specs.Judged.{EachIsJudged, NeverBoth, RefusesOne, SpellsOne};
ghost use Rattle.svf_parse.specs.Least.{AcceptedHasNone, LeastIsTold};
ghost use Rattle.svf_parse.specs.Sizes.{ValuesAreWritten};
ghost use Rattle.svf_parse.specs.Within.{SpelledIsWithin, WhatLiesWithinIsSpelled};

/// Of the refusals that a statement has of its own, as each of its numbers and fields has them, the one with the lowest
/// number is told, and a statement that is accepted has none.
pub fn the_lowest_refusal_is_told()
    ensures least { LeastIsTold }
    ensures accepted { AcceptedHasNone }
{}

/// A text spells one list of statements, or has one first refusal, and never both.
pub fn a_text_is_judged_once()
    ensures some { EachIsJudged }
    ensures one_list { SpellsOne }
    ensures one_refusal { RefusesOne }
    ensures never_both { NeverBoth }
{}

/// The bits of a field, with 0s above them up to the length of the scan, are the value of its digits at that length.
pub fn a_field_has_the_value_of_its_digits()
    ensures { ValuesAreWritten }
{}

/// What a text spells hangs on the limits only by whether it lies within them: it does, and what is spelled within some
/// limits is spelled within others that it lies within.
pub fn texts_are_limited()
    ensures within { SpelledIsWithin }
    ensures kept { WhatLiesWithinIsSpelled }
{}
