//! A text's statements, one after another.
ghost use Rattle.std.specs.Prelude.{◌≡◌, ◌≢◌, ◌+◌, ◌*◌, ◌≤◌, ◌∷◌, length, map, List, Result, Ok, Err, None};
ghost use Rattle.std.specs.Prelude.{IfOk, IfErr, IfSome};
ghost use Rattle.std.specs.Vec.{vec_len};
ghost use Rattle.std.specs.List.{sum_by};
ghost use Rattle.svf_lex.specs.Left.{left};
ghost use Rattle.svf_parse.specs.Judging.{Said};
ghost use Rattle.svf_words.specs.declared.fault.Code as declared_code;
ghost use Rattle.svf_parse.specs.declared.statement.Statement as declared_statement;
ghost use Rattle.svf_words.specs.Words.{words_left, groups_of};
ghost use Rattle.svf_parse.specs.Behind.{Behind};
ghost use Rattle.svf_parse.specs.Reading as spec;
ghost use Rattle.svf_parse.specs.Reading.{text_says, groups_say, statement_says, at_statement, within_limit};
ghost use Rattle.svf_parse.specs.Spelling.{TextSpells, TextRefuses};
ghost use Rattle.svf_parse.specs.Sizes.{size};
ghost use Rattle.svf_parse.specs.View.{Adds, Tells, Stops, Fails, Takes, Parses, IsFront, IsEnd, IsOpen, Begins};
ghost use Rattle.svf_parse.specs.View.{IsNext, said_of, memory_fault};

use crate::fault::{Refusal, Stop};
use crate::judging::say;
use crate::statement::Statement;
use jt_limits::LIMITS;
use std::alloc::Global;
use svf_lex::{Kind, LexFault, Lexer};
use svf_words::{Code, SvfFault, command_of};

/// A text has at most so many bytes: 16 MiB.
const TEXT_LIMIT: usize = LIMITS.text_bytes;

/// A text has at most so many statements.
const STATEMENT_LIMIT: usize = LIMITS.statements;

/// What stands at a lexer: the text's end, its fault, an empty statement, or a statement's first word; and the lexer
/// behind it.
enum Front<'a> {
    Over,
    Broken(LexFault),
    Empty(Lexer<'a>),
    Word(&'a [u8], Lexer<'a>),
}

/// How a statement ends: at the text's fault, or at the `;`; and the lexer behind that.
enum End<'a> {
    Broken(LexFault),
    Closed(Lexer<'a>),
}

/// The statements of a text in order, or its first refusal: that of the first faulty statement, and of its own refusals
/// the one with the lowest number. An empty statement says nothing and does not count.
///
/// A text above 16 MiB is refused as a whole (S15, statement 0). Want of memory is S16 with statement 0; nothing is
/// said of when it comes. The time is linear in the text's length. The answer has at most four bits for each byte of
/// the text, since a field has those that its digits write; beside text and answer, memory is taken only for one
/// statement: the digits of its fields that are more than one run, and, where it is refused or never closed, the states
/// that were read of it before; where it is never closed, also the bits of its fields.
pub fn parse(alloc: Global, text: &[u8]) -> Result<Vec<Statement>, SvfFault>
    // What is read is spelled so.
    ensures found { IfOk result (λ v. TextSpells text.now (map said_of v.items)) }
    // What is spelled so is read, unless memory runs out.
    ensures only { (ss : List Said) → TextSpells text.now ss → Parses result (Ok ss) }
    // It is small: statements, bits of fields and states of paths together are at most four for each byte of the text.
    ensures small { IfOk result (λ v. sum_by size (map said_of v.items) ≤ 4 * length text.now) }
    // What is refused has that refusal first.
    ensures refused { IfErr result (λ fault. fault ≢ memory_fault → TextRefuses text.now fault) }
    // What has a refusal first is refused so, unless memory runs out.
    ensures first { (fault : SvfFault) → TextRefuses text.now fault → Parses result (Err fault) }
{
    read(alloc, text)
}

fn read(alloc: Global, text: &[u8]) -> Result<Vec<Statement>, SvfFault>
    ensures { Parses result (text_says text.now) }
{
    match statements(alloc, lexer_of(text)?) {
        Ok(statements) => Ok(statements),
        Err(stop) => Err(told(stop)),
    }
}

fn statements(alloc: Global, text: Lexer<'_>) -> Result<Vec<Statement>, Stop>
    ensures { Tells (λ v. map said_of v.items) result (groups_say 1 (groups_of (left text.entry))) }
{
    let mut all = Vec::new(alloc);
    let mut lexer = text;
    loop {
        match front_of(lexer) {
            Front::Over => return Ok(all),
            Front::Broken(fault) => return Err(broken(all.len() + 1, fault)),
            Front::Empty(after) => lexer = after,
            Front::Word(word, rest) => match add(alloc, all.len() + 1, word, rest, &mut all) {
                Ok(after) => lexer = after,
                Err(stop) => return Err(stop),
            },
        }
    }
}

/// A text at its first byte, or the refusal of one above 16 MiB as a whole (S15, statement 0).
pub fn lexer_of(text: &[u8]) -> Result<Lexer<'_>, SvfFault>
    ensures { Begins result (text_says text.now) }
{
    if text.len() > TEXT_LIMIT {
        return Err(SvfFault {
            statement: 0,
            code: Code::TooLarge,
        });
    }
    Ok(Lexer::new(text))
}

/// Adds the next statement of a text, which has this number, to a list, for a caller that does not keep them all. Gives
/// the lexer behind its `;`, or none at the text's end, where nothing is added. An empty statement says nothing and
/// does not count.
///
/// A refusal is that of the text from there on, as `parse` tells it; nothing is said then of what the list has. Want of
/// memory is S16 with statement 0.
pub fn next_statement<'a>(
    alloc: Global,
    number: usize,
    text: Lexer<'a>,
    all: &mut Vec<Statement>,
) -> Result<Option<Lexer<'a>>, SvfFault>
    ensures next { IsNext number (groups_of (left text.entry)) result all.old.items all.new.items }
    ensures count { IfOk result (λ after. IfSome after (λ _. number ≤ spec.statement_limit)) }
{
    let mut lexer = text;
    loop {
        match front_of(lexer) {
            Front::Over => return Ok(None),
            Front::Broken(fault) => return Err(told(broken(number, fault))),
            Front::Empty(after) => lexer = after,
            Front::Word(word, rest) => {
                return match add(alloc, number, word, rest, all) {
                    Ok(after) => Ok(Some(after)),
                    Err(stop) => Err(told(stop)),
                };
            }
        }
    }
}

/// Why a text was not read on.
fn told(stop: Stop) -> SvfFault
    ensures { (says : Result (List Said) SvfFault) → Stops stop says → result ≢ memory_fault → says ≡ Err result }
{
    match stop {
        Stop::Fault(fault) => fault,
        Stop::Memory => SvfFault {
            statement: 0,
            code: Code::NoMemory,
        },
    }
}

/// Adds the statement of this word and those at the lexer, which has this number. Gives the lexer behind its `;`.
fn add<'a>(
    alloc: Global,
    number: usize,
    word: &'a [u8],
    words: Lexer<'a>,
    all: &mut Vec<Statement>,
) -> Result<Lexer<'a>, Stop>
    requires { IsOpen (groups_of (left words)) }
    ensures takes { Takes number word.now (groups_of (left words.entry)) result all.old.items all.new.items }
    ensures count { IfOk result (λ _. (vec_len all.new ≡ vec_len all.old + 1) × (number ≤ spec.statement_limit)) }
{
    let mut rest = words;
    let said = say_word(alloc, word, &mut rest, all);
    // A fault of the text comes before one of the statement. Words that were read for its form are not cut again.
    let after = match end_of(rest) {
        End::Broken(fault) => return Err(broken(number, fault)),
        End::Closed(after) => after,
    };
    match said {
        Ok(()) if number > STATEMENT_LIMIT => Err(Stop::Fault(SvfFault {
            statement: number,
            code: Code::TooLarge,
        })),
        Ok(()) => Ok(after),
        Err(refusal) => Err(stop_at(number, refusal)),
    }
}

/// The refusal of the statement with this number for a fault of the text.
fn broken(number: usize, fault: LexFault) -> Stop
    ensures { Stops {Y = List Said} result (Err (record { statement = number; code = spec.lex_code fault })) }
{
    Stop::Fault(SvfFault {
        statement: number,
        code: lex_code(fault),
    })
}

/// The refusal of the statement with this number.
fn stop_at(number: usize, refusal: Refusal) -> Stop
    ensures { (says : Result Said declared_code.Code) → Fails refusal says
        → Stops result (at_statement number (within_limit number says)) }
{
    match refusal {
        Refusal::Code(code) => Stop::Fault(SvfFault {
            statement: number,
            code,
        }),
        Refusal::Memory => Stop::Memory,
    }
}

/// Adds the statement of this word and those at the lexer, which then stands behind the words that were read, also
/// where they are refused.
fn say_word<'a>(
    alloc: Global,
    word: &'a [u8],
    words: &mut Lexer<'a>,
    all: &mut Vec<Statement>,
) -> Result<(), Refusal>
    ensures adds { Adds result all.old.items all.new.items (statement_says (word.now ∷ words_left words.old)) }
    ensures count { IfOk result (λ _. vec_len all.new ≡ vec_len all.old + 1) }
    ensures behind { Behind (left words.old) (left words.new) }
{
    match command_of(word) {
        Some(command) => say(alloc, command, words, all),
        None => Err(Refusal::Code(Code::UnknownCommand)),
    }
}

fn lex_code(fault: LexFault) -> Code
    ensures { result ≡ spec.lex_code fault }
{
    match fault {
        LexFault::BadByte(place) => Code::BadByte(place),
        LexFault::Unclosed(place) => Code::Unclosed(place),
    }
}

/// What begins at a lexer.
fn front_of(lexer: Lexer<'_>) -> Front<'_>
    ensures { IsFront result (groups_of (left lexer.entry)) }
{
    let mut after = lexer;
    match after.next() {
        None => Front::Over,
        Some(Err(fault)) => Front::Broken(fault),
        Some(Ok(token)) => match token.kind {
            Kind::Semi => Front::Empty(after),
            _ => Front::Word(token.text, after),
        },
    }
}

/// How the statement at a lexer ends.
fn end_of(words: Lexer<'_>) -> End<'_>
    requires { IsOpen (groups_of (left words)) }
    ensures { IsEnd result (groups_of (left words.entry)) }
{
    let mut after = words;
    loop {
        match after.next() {
            // An open statement ends at its `;` or at a fault.
            None => unreachable!(),
            Some(Err(fault)) => return End::Broken(fault),
            Some(Ok(token)) => {
                if let Kind::Semi = token.kind {
                    return End::Closed(after);
                }
            }
        }
    }
}
