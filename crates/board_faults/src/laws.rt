//! Laws of faults.
ghost use Rattle.board_faults.specs.Alike.{InvisibleFaultsAreNotCaptured};
ghost use Rattle.board_faults.specs.Judging.{EveryFaultHasAMeaningWithoutStrings};
ghost use Rattle.board_faults.specs.Missed.{EveryProgramMissesWhatIsInvisible};
ghost use Rattle.board_faults.specs.OnePlay.{OnePlayServesAllFaults, OneRunServesOtherNets};
ghost use Rattle.board_faults.specs.Rows.{FaultRows};
ghost use Rattle.board_faults.specs.Staying.{RegistersDifferByWhatStays, WholeScansLeaveNothing};
ghost use Rattle.board_faults.specs.StayingRows.{StayingRows};

/// Which faults two nets have, the nets with one, and what they show.
pub fn faults_compute()
    ensures { FaultRows }
{}

/// A board without strings has a meaning with every fault: no net depends on another.
pub fn every_fault_has_a_meaning_without_strings()
    ensures { EveryFaultHasAMeaningWithoutStrings }
{}

/// What is invisible changes no register: whatever the registers and the core bits of a board's devices are, each
/// capture is the same with the fault as without, so no scan can tell them apart.
pub fn invisible_faults_are_not_captured()
    ensures { InvisibleFaultsAreNotCaptured }
{}

/// What is invisible is missed by every program: a legal program's play on a board with such a fault ends as on the
/// board without it.
pub fn every_program_misses_what_is_invisible()
    ensures { EveryProgramMissesWhatIsInvisible }
{}

/// What stays of a step's captures on two bare devices.
pub fn what_stays_computes()
    ensures { StayingRows }
{}

/// A scan as long as the chain leaves none of what it captured in the registers. Only where it ends in the other
/// column's pause does something stay: what that column captures there.
pub fn whole_scans_leave_nothing()
    ensures { WholeScansLeaveNothing }
{}

/// The registers of two boards that differ in their nets alone are the same behind a step, whatever step it is, where
/// the same captured bits stay on both: what a scan shifts in does not hang on what it reads.
pub fn registers_differ_by_what_stays()
    ensures { RegistersDifferByWhatStays }
{}

/// As long as the same bits stay on a board with other nets, a program ends on it as its steps do one by one, each
/// from the good board's state before it: with the first of them that fails with the other nets. What stays of that
/// step, and of those behind it, does not matter.
pub fn one_run_serves_other_nets()
    ensures { OneRunServesOtherNets }
{}

/// The same of whole plays, from power-up, on a sound board and on the one where a fault shows in a way: one play of
/// the good board tells how a legal program ends on the board with the fault, as long as the same bits stay.
pub fn one_play_serves_all_faults()
    ensures { OnePlayServesAllFaults }
{}
