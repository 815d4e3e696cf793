//! What holds of the codes of variables.

ghost use Rattle.wave_files.specs.Laws.{CodesDiffer, CodesSuffice};

/// No two variables of a wave have one code (IEEE Std 1364-2001, clause 18), and there are enough for the largest
/// board.
pub fn codes_differ()
    ensures differ { CodesDiffer }
    ensures suffice { CodesSuffice }
{}
