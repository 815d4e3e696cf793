//! What holds of every word that stands for a number.
ghost use Rattle.svf_words.specs.Measures.{CountsAreWhole, PeriodsAreLeast, TimesAreLeast};
ghost use Rattle.svf_words.specs.Within.{CountsAreLimited, LengthsAreLimited, PeriodsAreLimited, TimesAreLimited};
ghost use Rattle.svf_words.specs.Written.{ReadsWhatIsWritten};

/// What is made of a number that has a value, and when it is refused: a period is the least whole number of picoseconds
/// that, times the frequency, is at least a second, refused for 0 hertz (S5) and above 10^18 ps (S15); a time the least
/// whole number of picoseconds that is not below it, refused above 10^18 ps (S15); a count the number itself, refused
/// where it is not whole (S5) and from 2^32 on (S15).
pub fn measures_are_exact()
    ensures period { PeriodsAreLeast }
    ensures time { TimesAreLeast }
    ensures count { CountsAreWhole }
{}

/// A word is read as a number, with these digits before and behind the point and this exponent, exactly where it writes
/// that number: digits with at most one point, and then, if wanted, an `E`, a sign if wanted, and digits.
pub fn numbers_are_read_as_they_are_written()
    ensures { ReadsWhatIsWritten }
{}

/// What a number says hangs on the limits by one of them alone: what is said is at most that, and where it is at most
/// that of other limits, those say it too.
pub fn numbers_are_limited()
    ensures period { PeriodsAreLimited }
    ensures time { TimesAreLimited }
    ensures count { CountsAreLimited }
    ensures length { LengthsAreLimited }
{}
