//! What holds of every list of statements.
ghost use Rattle.svf_settings.specs.Refusals.{LeastIsTold, AcceptedHasNone};
ghost use Rattle.svf_settings.specs.Running.{RunningIsLookingBack};
ghost use Rattle.svf_settings.specs.Periods.{ChangesAreFew, ChangesTellThePeriod};
ghost use Rattle.svf_settings.specs.Laws.{AcceptedIsSound, CyclesAreLeast, RefusesIsFunction, ResolvesIsFunction};
ghost use Rattle.svf_settings.specs.Laws.{ResolvedIsWithin, WhatLiesWithinResolves};

/// Of the refusals that a statement has, the one with the lowest number is told, and a statement that is not refused
/// has none.
pub fn the_lowest_refusal_is_told()
    ensures least { LeastIsTold }
    ensures accepted { AcceptedHasNone }
{}

/// The settings that are kept from statement to statement are those that one finds by looking back.
pub fn running_is_looking_back()
    ensures { RunningIsLookingBack }
{}

/// The changes of period that are kept tell the period at each statement, as one finds it by looking back, and are no
/// more than the statements.
pub fn changes_tell_the_period()
    ensures period { ChangesTellThePeriod }
    ensures few { ChangesAreFew }
{}

/// The cycles of a run are the least number that suits its count and its least time, of numbers of any size.
pub fn cycles_are_least()
    ensures { CyclesAreLeast }
{}

/// A list of statements is one program or has one first refusal, and never both.
pub fn statements_resolve_once()
    ensures program { ResolvesIsFunction }
    ensures refusal { RefusesIsFunction }
{}

/// Every accepted program is legal from RESET with TRST released, and within the limits.
pub fn accepted_programs_are_sound()
    ensures { AcceptedIsSound }
{}

/// Which program statements are hangs on the limits only by whether its steps lie within them: they do, and what is
/// accepted within some limits is accepted within others that its steps lie within.
pub fn programs_are_limited()
    ensures within { ResolvedIsWithin }
    ensures kept { WhatLiesWithinResolves }
{}
