//! What a statement says that is written in a form.
ghost use Rattle.std.specs.Prelude.{◌≡◌, ◌+◌, true, Some, None, Ok, IfOk, Option, option_map};
ghost use Rattle.std.specs.Char.{is_ascii_hexdigit};
ghost use Rattle.std.specs.List.{list_all};
ghost use Rattle.svf_parse.specs.Judging as spec;
ghost use Rattle.svf_parse.specs.Forms.{scan_form};
ghost use Rattle.svf_lex.specs.Left.{left};
ghost use Rattle.svf_words.specs.declared.keywords.Command.TheVariants as commands;
ghost use Rattle.svf_words.specs.Words.{Word, words_left};
ghost use Rattle.svf_parse.specs.Behind.{Behind};
ghost use Rattle.svf_parse.specs.Reading.{command_says};
ghost use Rattle.svf_words.specs.Numbers as numbers_spec;
ghost use Rattle.svf_parse.specs.FormView as view;
ghost use Rattle.svf_parse.specs.FormView.{given};
ghost use Rattle.svf_parse.specs.View.{Adds, said_of};
ghost use Rattle.std.specs.Vec.{vec_len};
ghost use Rattle.svf_words.specs.declared.keywords.Clock as declared_clock;

use crate::fault::Refusal;
use crate::fields::{Digits, Fields};
use crate::forms::{hertz, one_state, one_trst, some_states, take_scan};
use crate::run_test::{RunTest, take_run_test};
use crate::statement::Statement;
use jt_bits::{Bits, digits_have_one_beyond, is_hexadecimal};
use std::alloc::Global;
use svf_lex::Lexer;
use svf_words::{Clock, Code, Command, Which, count, length, length_value, period, time};

/// Adds the statement of this command and the words at the lexer, or gives the refusal with the lowest number among its
/// own. The lexer stands behind the words that were read for its form, also where they have none. What is read goes
/// into the statement by the command alone, and through no form that has room for all of them.
pub(crate) fn say(
    alloc: Global,
    command: Command,
    words: &mut Lexer<'_>,
    all: &mut Vec<Statement>,
) -> Result<(), Refusal>
    ensures adds { Adds result all.old.items all.new.items (command_says command (words_left words.old)) }
    ensures count { IfOk result (λ _. vec_len all.new ≡ vec_len all.old + 1) }
    ensures behind { Behind (left words.old) (left words.new) }
{
    match command {
        Command::Scan(which) => say_scan(alloc, which, words, all),
        Command::RunTest => say_run_test(words, all),
        Command::State => say_states(alloc, words, all),
        Command::EndDr => match one_state(words) {
            Some(state) => put(all, Statement::EndDr(state)),
            None => Err(Refusal::Code(Code::BadForm)),
        },
        Command::EndIr => match one_state(words) {
            Some(state) => put(all, Statement::EndIr(state)),
            None => Err(Refusal::Code(Code::BadForm)),
        },
        Command::Frequency => say_frequency(words, all),
        Command::Trst => match one_trst(words) {
            Some(word) => put(all, Statement::Trst(word)),
            None => Err(Refusal::Code(Code::BadForm)),
        },
        Command::Pio | Command::PioMap => Err(Refusal::Code(Code::Unsupported)),
    }
}

fn say_states(alloc: Global, words: &mut Lexer<'_>, all: &mut Vec<Statement>) -> Result<(), Refusal>
    ensures adds { Adds result all.old.items all.new.items (command_says commands.State (words_left words.old)) }
    ensures count { IfOk result (λ _. vec_len all.new ≡ vec_len all.old + 1) }
    ensures behind { Behind (left words.old) (left words.new) }
{
    match some_states(alloc, words) {
        Ok(Some(states)) => put(all, Statement::States(states)),
        Ok(None) => Err(Refusal::Code(Code::BadForm)),
        Err(_) => Err(Refusal::Memory),
    }
}

fn say_frequency(words: &mut Lexer<'_>, all: &mut Vec<Statement>) -> Result<(), Refusal>
    ensures adds { Adds result all.old.items all.new.items (command_says commands.Frequency (words_left words.old)) }
    ensures count { IfOk result (λ _. vec_len all.new ≡ vec_len all.old + 1) }
    ensures behind { Behind (left words.old) (left words.new) }
{
    match hertz(words) {
        None => Err(Refusal::Code(Code::BadForm)),
        Some(None) => put(all, Statement::Frequency(None)),
        Some(Some(word)) => match period(word) {
            Ok(period) => put(all, Statement::Frequency(Some(period))),
            Err(code) => Err(Refusal::Code(code)),
        },
    }
}

fn say_scan(
    alloc: Global,
    which: Which,
    words: &mut Lexer<'_>,
    all: &mut Vec<Statement>,
) -> Result<(), Refusal>
    ensures adds { Adds result all.old.items all.new.items (command_says (commands.Scan which) (words_left words.old)) }
    ensures count { IfOk result (λ _. vec_len all.new ≡ vec_len all.old + 1) }
    ensures behind { Behind (left words.old) (left words.new) }
{
    match take_scan(alloc, words) {
        Ok(Some((len, fields))) => scan(alloc, which, len, fields, all),
        Ok(None) => Err(Refusal::Code(Code::BadForm)),
        Err(_) => Err(Refusal::Memory),
    }
}

fn say_run_test(words: &mut Lexer<'_>, all: &mut Vec<Statement>) -> Result<(), Refusal>
    ensures adds { Adds result all.old.items all.new.items (command_says commands.RunTest (words_left words.old)) }
    ensures count { IfOk result (λ _. vec_len all.new ≡ vec_len all.old + 1) }
    ensures behind { Behind (left words.old) (left words.new) }
{
    match take_run_test(words) {
        Some(test) => run_test(test, all),
        None => Err(Refusal::Code(Code::BadForm)),
    }
}

/// Adds a statement. Who makes one adds it: the largest has 208 bytes, and whoever hands one back moves it twice. In
/// line, so that its parts are written where it stands in the list.
#[inline(always)]
fn put(all: &mut Vec<Statement>, said: Statement) -> Result<(), Refusal>
    ensures adds { Adds result all.old.items all.new.items (Ok (said_of said)) }
    ensures count { IfOk result (λ _. vec_len all.new ≡ vec_len all.old + 1) }
{
    match all.push(said) {
        Ok(()) => Ok(()),
        Err(_) => Err(Refusal::Memory),
    }
}

/// What this says, but for a refusal beside it, of which a lower number comes first.
fn checked<T: Drop>(fault: Option<Code>, says: Result<T, Code>) -> Result<T, Code>
    ensures { result ≡ spec.checked fault says }
{
    match (fault, says) {
        (None, says) => says,
        (Some(code), Ok(_)) => Err(code),
        (Some(code), Err(other)) => Err(code.lower(other)),
    }
}

/// What two say, or the lower refusal.
fn both<T: Drop, U: Drop>(first: Result<T, Code>, second: Result<U, Code>) -> Result<(T, U), Code>
    ensures { result ≡ spec.both first second }
{
    match (first, second) {
        (Ok(one), Ok(other)) => Ok((one, other)),
        (Ok(_), Err(code)) => Err(code),
        (Err(code), Ok(_)) => Err(code),
        (Err(code), Err(other)) => Err(code.lower(other)),
    }
}

// ---- scans

fn scan(
    alloc: Global,
    which: Which,
    len: &[u8],
    fields: Fields<'_>,
    all: &mut Vec<Statement>,
) -> Result<(), Refusal>
    ensures adds { Adds result all.old.items all.new.items
        (spec.form_says (scan_form which len.now (view.fields fields.entry))) }
    ensures count { IfOk result (λ _. vec_len all.new ≡ vec_len all.old + 1) }
{
    let len = match scan_length(len, &fields) {
        Ok(len) => len,
        Err(code) => return Err(Refusal::Code(code)),
    };
    let Fields {
        tdi,
        tdo,
        mask,
        smask,
    } = fields;
    let (Ok(tdi), Ok(tdo), Ok(mask), Ok(smask)) = (
        bits(alloc, len, tdi),
        bits(alloc, len, tdo),
        bits(alloc, len, mask),
        bits(alloc, len, smask),
    ) else {
        return Err(Refusal::Memory);
    };
    let said = Statement::Scan {
        which,
        len,
        tdi,
        tdo,
        mask,
        smask,
    };
    put(all, said)
}

/// The length of a scan, unless it or a field is refused.
#[tactic(auto, unfolding(crate::specs::Judging::scan_says_within))]
fn scan_length(len: &[u8], all: &Fields<'_>) -> Result<usize, Code>
    ensures { result ≡ spec.scan_says len.now (view.fields all.now) }
{
    let value = length_value(len);
    let says = checked(field_fault(value, digits_in(&all.smask)), length(len));
    let says = checked(field_fault(value, digits_in(&all.mask)), says);
    let says = checked(field_fault(value, digits_in(&all.tdo)), says);
    checked(field_fault(value, digits_in(&all.tdi)), says)
}

/// The digits of a field, if it is given.
fn digits_in<'a>(field: &'a Option<Digits<'_>>) -> Option<&'a [u8]>
    ensures { option_map {U = Word} (λ w. w.now) result ≡ given field.now }
{
    match field {
        Some(digits) => Some(digits.bytes()),
        None => None,
    }
}

/// The refusal of a field of a scan whose length has this value.
fn field_fault(len: Option<usize>, digits: Option<&[u8]>) -> Option<Code>
    ensures { result ≡ spec.field_fault len (option_map {U = Word} (λ w. w.now) digits.entry) }
{
    let Some(digits) = digits else {
        return None;
    };
    if !is_hexadecimal(digits) {
        Some(Code::BadNumber)
    } else if is_wider(len, digits) {
        Some(Code::TooWide)
    } else {
        None
    }
}

/// Whether digits have a 1 beyond a length, where there is one.
fn is_wider(len: Option<usize>, digits: &[u8]) -> bool
    requires { list_all is_ascii_hexdigit digits.now ≡ true }
    ensures { result ≡ spec.is_wider len digits.now }
{
    match len {
        Some(len) => digits_have_one_beyond(digits, len),
        None => false,
    }
}

/// The bits of a field that its digits write, four for each, and none beyond the length. The digits are let go.
fn bits(alloc: Global, len: usize, field: Option<Digits<'_>>) -> Result<Option<Bits>, Refusal>
    requires { spec.field_fault (Some len) (given field) ≡ None }
    ensures { IfOk result (λ b. b ≡ spec.bits len (given field.entry)) }
{
    match field {
        None => Ok(None),
        Some(field) => {
            let digits = field.bytes();
            let written = digits.len().saturating_mul(4).min(len);
            match Bits::of_digits(alloc, digits, written) {
                Ok(bits) => Ok(Some(bits)),
                Err(_) => Err(Refusal::Memory),
            }
        }
    }
}

// ---- runs

#[tactic(auto, unfolding(crate::specs::Judging::run_test_says_within))]
fn run_test(test: RunTest<'_>, all: &mut Vec<Statement>) -> Result<(), Refusal>
    ensures adds { Adds result all.old.items all.new.items (spec.run_test_says (view.run_test test.entry)) }
    ensures count { IfOk result (λ _. vec_len all.new ≡ vec_len all.old + 1) }
{
    let times = both(given_time(test.min), given_time(test.max));
    match both(given_cycles(test.count), times) {
        Ok((count, (min_ps, max_ps))) => {
            let said = Statement::RunTest {
                run: test.run,
                count,
                min_ps,
                max_ps,
                end: test.end,
            };
            put(all, said)
        }
        Err(code) => Err(Refusal::Code(code)),
    }
}

fn given_time(word: Option<&[u8]>) -> Result<Option<u64>, Code>
    ensures { result ≡ spec.given numbers_spec.time_says (option_map {U = Word} (λ w. w.now) word.entry) }
{
    match word {
        None => Ok(None),
        Some(word) => match time(word) {
            Ok(time) => Ok(Some(time)),
            Err(code) => Err(code),
        },
    }
}

fn given_cycles(count: Option<(&[u8], Clock)>) -> Result<Option<u32>, Code>
    ensures { result ≡ spec.given spec.cycles_say
        (option_map {U = Word × declared_clock.Clock} (λ c. (c.0.now, c.1)) count.entry) }
{
    match count {
        None => Ok(None),
        Some((word, clock)) => match cycles(word, clock) {
            Ok(count) => Ok(Some(count)),
            Err(code) => Err(code),
        },
    }
}

fn cycles(word: &[u8], clock: Clock) -> Result<u32, Code>
    ensures { result ≡ spec.cycles_say (word.now, clock) }
{
    checked(clock_fault(clock), count(word))
}

/// There is no free-running system clock.
fn clock_fault(clock: Clock) -> Option<Code>
    ensures { result ≡ spec.clock_fault clock }
{
    match clock {
        Clock::Tck => None,
        Clock::Sck => Some(Code::Unsupported),
    }
}
