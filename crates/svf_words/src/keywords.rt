//! The keywords of SVF.
ghost use Rattle.std.specs.Prelude.{◌≡◌, ℕ, List, find};
ghost use Rattle.std.specs.Str.{bytes_eq};
ghost use Rattle.svf_words.specs.Keywords as spec;
ghost use Rattle.svf_words.specs.Words as words_spec;
ghost use Rattle.jt_tap.specs.Words as states;

use crate::words::reads;
use jt_tap::State;

/// A scan command of SVF.
#[derive(Debug, Clone, Copy, PartialEq, Eq)]
pub enum Which {
    /// `HDR`, the bits nearest TDO of each scan of a data register that follows.
    Hdr,
    /// `HIR`, the same of the instruction register.
    Hir,
    /// `TDR`, the bits farthest from TDO of each scan of a data register that follows.
    Tdr,
    /// `TIR`, the same of the instruction register.
    Tir,
    /// `SDR`, a scan of a data register.
    Sdr,
    /// `SIR`, a scan of the instruction register.
    Sir,
}

/// What a `TRST` statement says.
#[derive(Debug, Clone, Copy, PartialEq, Eq)]
pub enum TrstWord {
    /// TRST is held active.
    On,
    /// TRST is driven inactive.
    Off,
    /// TRST is not driven.
    Z,
    /// There is no TRST.
    Absent,
}

/// A command, which begins a statement.
#[derive(Debug, Clone, Copy, PartialEq, Eq)]
pub enum Command {
    /// `ENDDR`.
    EndDr,
    /// `ENDIR`.
    EndIr,
    /// `FREQUENCY`.
    Frequency,
    /// `HDR`, `HIR`, `TDR`, `TIR`, `SDR` or `SIR`.
    Scan(Which),
    /// `RUNTEST`.
    RunTest,
    /// `STATE`.
    State,
    /// `TRST`.
    Trst,
    /// `PIO`, of a parallel port.
    Pio,
    /// `PIOMAP`, of a parallel port.
    PioMap,
}

/// The name of a scan's field.
#[derive(Debug, Clone, Copy, PartialEq, Eq)]
pub enum FieldName {
    /// `TDI`, what goes in.
    Tdi,
    /// `TDO`, what must come out.
    Tdo,
    /// `MASK`, which bits of TDO count.
    Mask,
    /// `SMASK`, which bits of TDI count.
    Smask,
}

/// The clock whose cycles a RUNTEST counts.
#[derive(Debug, Clone, Copy, PartialEq, Eq)]
pub enum Clock {
    /// `TCK`, the test clock.
    Tck,
    /// `SCK`, the system clock.
    Sck,
}

/// Those that programs have most of, which a word is tried as first, as they are spelled.
const FREQUENT: [Command; 4] = [
    Command::Scan(Which::Sdr),
    Command::Scan(Which::Sir),
    Command::RunTest,
    Command::State,
];

/// Those that programs have most of stand first, since a word is tried as one after another.
const COMMANDS: [Command; 14] = [
    Command::Scan(Which::Sdr),
    Command::Scan(Which::Sir),
    Command::RunTest,
    Command::State,
    Command::EndDr,
    Command::EndIr,
    Command::Frequency,
    Command::Scan(Which::Hdr),
    Command::Scan(Which::Hir),
    Command::Scan(Which::Tdr),
    Command::Scan(Which::Tir),
    Command::Trst,
    Command::Pio,
    Command::PioMap,
];

const FIELDS: [FieldName; 4] = [
    FieldName::Tdi,
    FieldName::Tdo,
    FieldName::Mask,
    FieldName::Smask,
];

const CLOCKS: [Clock; 2] = [Clock::Tck, Clock::Sck];

/// The states in which a program may rest, which a word is tried as first, as they are spelled.
const STABLE: [State; 4] = [State::Idle, State::Reset, State::DrPause, State::IrPause];

const TRST_WORDS: [TrstWord; 4] = [TrstWord::On, TrstWord::Off, TrstWord::Z, TrstWord::Absent];

/// A kind of keywords.
trait Keyword: Copy {
    ghost spelling: { Self → List ℕ };

    /// The keyword's letters, in upper case.
    fn letters(self) -> &'static [u8]
        ensures { result.now ≡ spelling self };
}

/// The command that the word is, in any case, if it is one.
#[tactic(auto, unfolding(crate::specs::Keywords::command_of))]
pub fn command_of(word: &[u8]) -> Option<Command>
    ensures { result ≡ spec.command_of word.now }
{
    match first_spelt(&FREQUENT, word) {
        Some(command) => Some(command),
        None => first_read(&COMMANDS, word),
    }
}

/// The name of a field that the word is, in any case, if it is one.
#[tactic(auto, unfolding(crate::specs::Keywords::field_of))]
pub fn field_of(word: &[u8]) -> Option<FieldName>
    ensures { result ≡ spec.field_of word.now }
{
    match first_spelt(&FIELDS, word) {
        Some(field) => Some(field),
        None => first_read(&FIELDS, word),
    }
}

/// The clock that the word is, in any case, if it is one.
#[tactic(auto, unfolding(crate::specs::Keywords::clock_of))]
pub fn clock_of(word: &[u8]) -> Option<Clock>
    ensures { result ≡ spec.clock_of word.now }
{
    first_read(&CLOCKS, word)
}

/// The word of TRST that the word is, in any case, if it is one.
#[tactic(auto, unfolding(crate::specs::Keywords::trst_of))]
pub fn trst_of(word: &[u8]) -> Option<TrstWord>
    ensures { result ≡ spec.trst_of word.now }
{
    first_read(&TRST_WORDS, word)
}

/// The state that the word is, in any case, if it is one.
pub fn state_of(word: &[u8]) -> Option<State>
    ensures { result ≡ spec.state_of word.now }
{
    match first_spelt(&STABLE, word) {
        Some(state) => Some(state),
        None => State::from_word(word),
    }
}

/// The first of these keywords that the word is as it is spelled, in upper case: most programs are written so, and it
/// is soonest seen.
fn first_spelt<K: Keyword>(keywords: &[K], word: &[u8]) -> Option<K>
    ensures { result ≡ find (λ k. bytes_eq word.now (K.spelling k)) keywords.now }
{
    keywords
        .iter()
        .copied()
        .find(|keyword| word == keyword.letters())
}

/// The first of these keywords that the word is, in any case.
fn first_read<K: Keyword>(keywords: &[K], word: &[u8]) -> Option<K>
    ensures { result ≡ find (λ k. words_spec.reads word.now (K.spelling k)) keywords.now }
{
    keywords
        .iter()
        .copied()
        .find(|keyword| reads(word, keyword.letters()))
}

impl Keyword for Command {
    ghost spelling = { spec.command_word };

    fn letters(self) -> &'static [u8] {
        match self {
            Command::EndDr => b"ENDDR",
            Command::EndIr => b"ENDIR",
            Command::Frequency => b"FREQUENCY",
            Command::Scan(which) => which.letters(),
            Command::RunTest => b"RUNTEST",
            Command::State => b"STATE",
            Command::Trst => b"TRST",
            Command::Pio => b"PIO",
            Command::PioMap => b"PIOMAP",
        }
    }
}

impl Keyword for Which {
    ghost spelling = { spec.scan_word };

    fn letters(self) -> &'static [u8] {
        match self {
            Which::Hdr => b"HDR",
            Which::Hir => b"HIR",
            Which::Tdr => b"TDR",
            Which::Tir => b"TIR",
            Which::Sdr => b"SDR",
            Which::Sir => b"SIR",
        }
    }
}

impl Keyword for FieldName {
    ghost spelling = { spec.field_word };

    fn letters(self) -> &'static [u8] {
        match self {
            FieldName::Tdi => b"TDI",
            FieldName::Tdo => b"TDO",
            FieldName::Mask => b"MASK",
            FieldName::Smask => b"SMASK",
        }
    }
}

impl Keyword for Clock {
    ghost spelling = { spec.clock_word };

    fn letters(self) -> &'static [u8] {
        match self {
            Clock::Tck => b"TCK",
            Clock::Sck => b"SCK",
        }
    }
}

impl Keyword for State {
    ghost spelling = { states.word };

    fn letters(self) -> &'static [u8] {
        self.word().as_bytes()
    }
}

impl Keyword for TrstWord {
    ghost spelling = { spec.trst_word };

    fn letters(self) -> &'static [u8] {
        match self {
            TrstWord::On => b"ON",
            TrstWord::Off => b"OFF",
            TrstWord::Z => b"Z",
            TrstWord::Absent => b"ABSENT",
        }
    }
}
