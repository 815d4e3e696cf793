//! Direct play of every legal program on every chain of sound devices: laws over the definitions that the contracts of
//! the board and of the player cite.
ghost use Rattle.play_model.specs.LegalPlays.{EachLegalStepPlaysAsItMeans, EveryDescribedBoardPlaysLegalPrograms};
ghost use Rattle.play_model.specs.LegalPlays.{EveryLegalProgramMeansFromOpening, EveryLegalProgramPlaysAsItMeans};
ghost use Rattle.play_model.specs.LegalPlays.{LegalityIsOfTheProgram, TheStateAtRestIsOne};
ghost use Rattle.play_model.specs.LegalSamples.{PremisesAreNeeded, PremisesCanBeMet};

/// From rest, the bytes of a legal step leave a chain of sound devices at rest where whole registers say, in registers
/// that are sound again, and the first wanted bit that differs is the one that whole registers name.
pub fn each_legal_step_plays_as_it_means()
    ensures { EachLegalStepPlaysAsItMeans }
{}

/// The law of direct play. On every board of sound devices, whatever bytes it took before, every legal program ends
/// edge by edge as its meaning over whole registers says, at the same statement and bit where one fails, and leaves the
/// board at rest in the registers that this meaning gives.
pub fn every_legal_program_plays_as_it_means()
    ensures { EveryLegalProgramPlaysAsItMeans }
{}

/// The same as a clause that the contracts of direct play have: for every legal program and sound board, the play's
/// ending and the board after it are what the program means from the state after the opening.
pub fn every_legal_program_means_from_the_opening()
    ensures { EveryLegalProgramMeansFromOpening }
{}

/// Whether a program is legal is read off its steps: off the place where each begins and whether TRST is asserted
/// there. No register and no pin has a say in it.
pub fn legality_is_of_the_program_alone()
    ensures { LegalityIsOfTheProgram }
{}

/// A board that has a device is at rest in one state alone, so that "the state after the opening" names one.
pub fn the_state_at_rest_is_one()
    ensures { TheStateAtRestIsOne }
{}

/// The law of direct play for boards as they are described. A board of at least one device, all of sound descriptions,
/// as it powers up or after any bytes, mid-scan too, plays every legal program as it means: the same ending, and at
/// rest in the registers that the meaning gives.
pub fn every_described_board_plays_legal_programs()
    ensures { EveryDescribedBoardPlaysLegalPrograms }
{}

/// The premises can be met: a program of every kind of step is legal, and devices with a TRST port, a code and a user
/// register have sound descriptions.
pub fn the_premises_can_be_met()
    ensures { PremisesCanBeMet }
{}

/// The premises are needed: on no device, on a device whose capture has no bit, and for a move that leaves RESET under
/// TRST, edges and whole registers differ.
pub fn the_premises_are_needed()
    ensures { PremisesAreNeeded }
{}
