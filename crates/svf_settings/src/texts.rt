//! The program of a text that is read statement by statement.

ghost use Rattle.std.specs.Prelude.{◌≡◌, ◌≢◌, ℕ, ◌+◌, ◌*◌, ◌<◌, ◌≤◌, List, [], ◌∷◌, ◌++◌, IfOk, Ok, length, map};
ghost use Rattle.std.specs.List.{sum_by};
ghost use Rattle.svf_lex.specs.Left.{left};
ghost use Rattle.svf_words.specs.Words.{groups_of};
ghost use Rattle.svf_parse.specs.declared.statement.Statement as declared_statement;
ghost use Rattle.svf_parse.specs.Judging.{Said};
ghost use Rattle.svf_parse.specs.Reading.{groups_say, text_says};
ghost use Rattle.svf_parse.specs.View.{memory_fault, said_of};
ghost use Rattle.svf_programs.specs.Sizes.{content};
ghost use Rattle.svf_programs.specs.Sound.{step_limit};
ghost use Rattle.svf_settings.specs.Held as held;
ghost use Rattle.svf_settings.specs.Held.{StandsIfNamed};
ghost use Rattle.svf_settings.specs.LookBack.{settings};
ghost use Rattle.svf_settings.specs.Periods.{KeepsPeriodsOf};
ghost use Rattle.svf_settings.specs.Programs.{said_resolution, text_resolution};
ghost use Rattle.svf_settings.specs.Reading.{Answers, IsBehind, KeepsAfter, Takes, TakesLast, first_of};

use crate::reading::{Makings, Reader, memory};
use std::alloc::{AllocError, Global};
use svf_lex::Lexer;
use svf_parse::{Code, Statement, SvfFault, lexer_of, next_statement};
use svf_programs::{Kept, Program};

/// The program of a text, or its first refusal: that of its first faulty statement by form (S1 to S6, S13, S15), or
/// where no statement has one, that of the first which lacks something from those before it (S7 to S12, S14, S15). Of
/// the refusals of a statement the one with the lowest number is told. Want of memory is S16 with statement 0.
///
/// It is what `svf_parse::parse` and `resolve` make of the text one after the other. But the text is read statement by
/// statement, and of these only the ones that a step may name are kept: scans, unless one is the same as the last of
/// its command, and paths of several states.
pub fn resolve_text(alloc: Global, text: &[u8]) -> Result<Program, SvfFault>
    // It is the text's program or first refusal, unless memory runs out.
    ensures answers { Answers result (text_resolution text.now) }
    // It is small: steps, bits of fields and states of paths together are at most four for each byte of the text.
    ensures small { IfOk result (λ p. length p.steps + p.held ≤ 4 * length text.now) }
    // It keeps each change of the period of TCK, and so tells the period at each statement.
    ensures periods { IfOk result (λ p. KeepsPeriodsOf (text_says text.now) p.periods) }
{
    read_text(alloc, lexer_of(text)?)
}

fn read_text(alloc: Global, text: Lexer<'_>) -> Result<Program, SvfFault>
    ensures answers { Answers result (said_resolution (groups_say 1 (groups_of (left text.entry)))) }
    ensures held { IfOk result (λ p. (all : List Said)
        → groups_say 1 (groups_of (left text.entry)) ≡ Ok all → p.held ≤ sum_by content all) }
    ensures periods { IfOk result (λ p. KeepsPeriodsOf (groups_say 1 (groups_of (left text.entry))) p.periods) }
{
    let mut keeper = Keeper::first(alloc);
    let mut count = 0;
    let mut lexer = text;
    loop {
        let Some(after) = next_statement(alloc, count + 1, lexer, &mut keeper.statements)? else {
            let Makings { steps, periods } = keeper.made;
            return Ok(Program::of_kept(count, keeper.statements, steps, periods));
        };
        lexer = after;
        count += 1;
        match keeper.take(count as u32) {
            Err(_) => return Err(memory()),
            Ok(None) => {}
            Ok(Some(code)) => {
                let fault = SvfFault {
                    statement: count,
                    code,
                };
                return Err(first_fault(alloc, count + 1, lexer, keeper.statements, fault));
            }
        }
    }
}

/// The first refusal of a text, of which a statement before this number has this one by its settings: a fault of form
/// comes before it, wherever it stands. The statements in the list are let go.
fn first_fault(
    alloc: Global,
    next: usize,
    text: Lexer<'_>,
    list: Vec<Statement>,
    fault: SvfFault,
) -> SvfFault
    ensures { result ≢ memory_fault → result ≡ first_of (groups_say next (groups_of (left text.entry))) fault }
{
    let mut all = list;
    let mut number = next;
    let mut lexer = text;
    loop {
        all.clear();
        match next_statement(alloc, number, lexer, &mut all) {
            Err(form) => return form,
            Ok(None) => return fault,
            Ok(Some(after)) => {
                lexer = after;
                number += 1;
            }
        }
    }
}

/// What is kept of the statements so far: the settings behind them, the statements that a step or these may name, and
/// what they made.
#[derive(Drop)]
struct Keeper {
    reader: Reader,
    statements: Vec<Statement>,
    made: Makings,
}

impl Keeper {
    /// Before the first statement.
    fn first(alloc: Global) -> Keeper
        ensures after { KeepsAfter [] [] result.reader result.made.steps.items result.made.periods.items }
        ensures none { result.statements.items ≡ [] }
    {
        Keeper {
            reader: Reader::first(),
            statements: Vec::new(alloc),
            made: Makings::new(alloc),
        }
    }

    /// Takes the last one in the list, which has this number, and lets it go if nothing names it: or gives its refusal.
    fn take(&mut self, number: u32) -> Result<Option<Code>, AllocError>
        requires some { 0 < length self.old.statements.items }
        requires few { length self.old.statements.items ≤ step_limit }
        ensures { (front : List declared_statement.Statement) (s : declared_statement.Statement) (past : List Said)
            → self.old.statements.items ≡ front ++ s ∷ [] → number ≡ length past + 1
            → KeepsAfter front past self.old.reader self.old.made.steps.items self.old.made.periods.items
            → TakesLast front s past self.new.reader self.new.statements.items self.new.made.steps.items
            self.new.made.periods.items result }
    {
        let named = is_last_named(&self.reader, self.statements.as_slice());
        let made = match take_last(&mut self.reader, self.statements.as_slice()) {
            Ok(made) => made,
            Err(code) => return Ok(Some(code)),
        };
        self.made.push(number, self.reader.running.period, made)?;
        keep_last_if(&mut self.statements, named);
        Ok(None)
    }
}

/// Whether the last statement may be named.
fn is_last_named(reader: &Reader, statements: &[Statement]) -> bool
    requires { 0 < length statements.now }
    ensures { (front : List declared_statement.Statement) (s : declared_statement.Statement) (past : List Said)
        → statements.now ≡ front ++ s ∷ [] → IsBehind (map said_of statements.now) past reader.now
        → result ≡ held.is_named (settings past) (said_of s) }
{
    let last = statements.len() - 1;
    reader.running.is_named(statements, &statements[last])
}

/// Takes the last statement: its step, if it makes one, or its refusal.
fn take_last(reader: &mut Reader, statements: &[Statement]) -> Result<Option<Kept>, Code>
    requires some { 0 < length statements.now }
    requires few { length statements.now ≤ step_limit }
    ensures { (front : List declared_statement.Statement) (s : declared_statement.Statement)
        → statements.now ≡ front ++ s ∷ [] → (all past : List Said)
        → IsBehind (map said_of statements.now) past reader.old → IsBehind all past reader.old
        → StandsIfNamed all (settings past) (length front) (said_of s) → Takes all past (said_of s) reader.new result }
{
    let last = statements.len() - 1;
    reader.take(statements, last as u32, &statements[last])
}

/// Lets the last statement go, unless it may be named.
fn keep_last_if(statements: &mut Vec<Statement>, named: bool)
    requires { 0 < length statements.old.items }
    ensures { (front : List declared_statement.Statement) (s : declared_statement.Statement)
        → statements.old.items ≡ front ++ s ∷ [] → statements.new.items ≡ front ++ held.if_named named s }
{
    if !named {
        statements.pop();
    }
}
