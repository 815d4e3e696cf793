//! The first token of a statement that its command's form does not let stand there.
ghost use Rattle.std.specs.Prelude.{◌≡◌};
ghost use Rattle.svf_lex.specs.Left.{left};
ghost use Rattle.refusal_places.specs.Misfits as spec;
ghost use Rattle.refusal_places.specs.MisfitLaws.{MisfitsComeFirst};

use svf_lex::{Kind, Lexer};
use svf_words::{
    Command, FieldName, clock_of, field_of, is_close, is_number, is_open, reads, state_of, trst_of,
};

/// What may stand next in a statement, beside the end of some.
#[derive(Clone, Copy)]
pub(crate) enum Awaited {
    /// Nothing more.
    End,
    /// A state, and nothing behind it.
    LastState,
    TrstWord,
    /// A state of a path.
    FirstState,
    FurtherState,
    /// `[number HZ]`
    Frequency,
    Hertz,
    /// The length of a scan.
    Length,
    /// A field, behind these: its name, `(`, and its digits up to `)`.
    Field(Given),
    Opening(Given),
    Digits(Given),
    RunTest(InRun),
}

/// Which fields of a scan are given.
#[derive(Clone, Copy)]
pub(crate) struct Given {
    tdi: bool,
    tdo: bool,
    mask: bool,
    smask: bool,
}

/// What may stand next in a RUNTEST.
#[derive(Clone, Copy)]
pub(crate) enum InRun {
    /// A state or a number.
    Start,
    /// The number behind a state, and its unit.
    Count,
    Unit,
    /// The number of a time behind a count, or ENDSTATE.
    Time,
    Seconds,
    /// MAXIMUM or ENDSTATE.
    Maximum,
    Most,
    MostSeconds,
    EndState,
}

/// Where the first token stands that does not fit behind a command: a word, or the `;` of a statement that may not end
/// there.
pub(crate) fn first_misfit(awaited: Awaited, words: Lexer<'_>) -> Option<usize>
    ensures { result ≡ spec.misfit awaited (left words.entry) }
{
    let mut here = awaited;
    let mut rest = words;
    while let Some(Ok(token)) = rest.next() {
        if let Kind::Semi = token.kind {
            return if may_end(here) {
                None
            } else {
                Some(token.start)
            };
        }
        match behind(here, token.text) {
            Some(next) => here = next,
            None => return Some(token.start),
        }
    }
    None
}

/// The law that a token which is told to be a misfit is the first with which no statement of its command goes on by the
/// grammar: some statement begins with the words before it, and none with it; where it is the `;` they are none.
pub fn a_misfit_is_the_first_with_which_no_statement_goes_on()
    ensures { MisfitsComeFirst }
{
    svf_parse::forms_are_read_as_they_are_written();
}

/// What is awaited behind a command; of a parallel port anything is.
pub(crate) fn behind_command(command: Command) -> Option<Awaited>
    ensures { result ≡ spec.behind_command command }
{
    match command {
        Command::EndDr | Command::EndIr => Some(Awaited::LastState),
        Command::Frequency => Some(Awaited::Frequency),
        Command::Scan(_) => Some(Awaited::Length),
        Command::RunTest => Some(Awaited::RunTest(InRun::Start)),
        Command::State => Some(Awaited::FirstState),
        Command::Trst => Some(Awaited::TrstWord),
        Command::Pio | Command::PioMap => None,
    }
}

/// Whether a statement may end here.
fn may_end(awaited: Awaited) -> bool
    ensures { result ≡ spec.may_end awaited }
{
    match awaited {
        Awaited::End | Awaited::FurtherState | Awaited::Frequency | Awaited::Field(_) => true,
        Awaited::RunTest(next) => matches!(next, InRun::Time | InRun::Maximum | InRun::EndState),
        _ => false,
    }
}

/// What is awaited behind a word that stands here; none where it does not fit.
fn behind(awaited: Awaited, word: &[u8]) -> Option<Awaited>
    ensures { result ≡ spec.behind awaited word.now }
{
    match awaited {
        Awaited::End => None,
        Awaited::LastState => if_so(state_of(word).is_some(), Awaited::End),
        Awaited::TrstWord => if_so(trst_of(word).is_some(), Awaited::End),
        Awaited::FirstState | Awaited::FurtherState => {
            if_so(state_of(word).is_some(), Awaited::FurtherState)
        }
        Awaited::Frequency => if_so(is_number(word), Awaited::Hertz),
        Awaited::Hertz => if_so(reads(word, b"HZ"), Awaited::End),
        Awaited::Length => if_so(is_number(word), Awaited::Field(none_given())),
        Awaited::Field(given) => Some(Awaited::Opening(give(field_of(word)?, given)?)),
        Awaited::Opening(given) => if_so(is_open(word), Awaited::Digits(given)),
        Awaited::Digits(given) => {
            if is_close(word) {
                Some(Awaited::Field(given))
            } else {
                if_so(!is_open(word), Awaited::Digits(given))
            }
        }
        Awaited::RunTest(next) => behind_in_run(next, word),
    }
}

fn behind_in_run(awaited: InRun, word: &[u8]) -> Option<Awaited>
    ensures { result ≡ spec.behind_in_run awaited word.now }
{
    match awaited {
        InRun::Start if state_of(word).is_some() => Some(Awaited::RunTest(InRun::Count)),
        InRun::Start | InRun::Count => if_so(is_number(word), Awaited::RunTest(InRun::Unit)),
        InRun::Unit if clock_of(word).is_some() => Some(Awaited::RunTest(InRun::Time)),
        InRun::Unit | InRun::Seconds => {
            if_so(reads(word, b"SEC"), Awaited::RunTest(InRun::Maximum))
        }
        InRun::Time if is_number(word) => Some(Awaited::RunTest(InRun::Seconds)),
        InRun::Maximum if reads(word, b"MAXIMUM") => Some(Awaited::RunTest(InRun::Most)),
        InRun::Most => if_so(is_number(word), Awaited::RunTest(InRun::MostSeconds)),
        InRun::MostSeconds => if_so(reads(word, b"SEC"), Awaited::RunTest(InRun::EndState)),
        InRun::Time | InRun::Maximum | InRun::EndState => {
            if_so(reads(word, b"ENDSTATE"), Awaited::LastState)
        }
    }
}

/// What is awaited behind a word, if that fits.
fn if_so(fits: bool, next: Awaited) -> Option<Awaited>
    ensures { result ≡ spec.if_so fits next }
{
    if fits { Some(next) } else { None }
}

fn none_given() -> Given
    ensures { result ≡ spec.none_given }
{
    Given {
        tdi: false,
        tdo: false,
        mask: false,
        smask: false,
    }
}

/// One field more, which is given once at most.
fn give(field: FieldName, given: Given) -> Option<Given>
    ensures { result ≡ spec.give field given }
{
    match field {
        FieldName::Tdi if !given.tdi => Some(Given { tdi: true, ..given }),
        FieldName::Tdo if !given.tdo => Some(Given { tdo: true, ..given }),
        FieldName::Mask if !given.mask => Some(Given {
            mask: true,
            ..given
        }),
        FieldName::Smask if !given.smask => Some(Given {
            smask: true,
            ..given
        }),
        _ => None,
    }
}
