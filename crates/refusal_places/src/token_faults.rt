//! The token at fault in a refused statement of SVF text.
ghost use Rattle.std.specs.Prelude.{◌≡◌, ◌^◌, ◌<◌, ◌∷◌, [], MatchOption, IfSome, None, Ok, false, length};
ghost use Rattle.svf_lex.specs.Cutting.{items_of};
ghost use Rattle.svf_lex.specs.Left.{left};
ghost use Rattle.svf_lex.specs.Scanning.{lexeme};
ghost use Rattle.svf_words.specs.Numbers.{len_value};
ghost use Rattle.refusal_places.specs.Misfits as misfits;
ghost use Rattle.refusal_places.specs.TokenFaults as spec;

use crate::misfits::{behind_command, first_misfit};
use jt_bits::{has_one_beyond, is_hexadecimal};
use jt_tap::State;
use svf_lex::{Kind, Lexer, Token};
use svf_words::{
    Code, Command, SvfFault, Which, command_of, count, is_number, length, length_value, period,
    reads, state_of, time,
};

/// Where the token stands that is at fault in a refused text, if one token is: of S4 the first that does not fit the
/// form of its command, of S9 the first state that is not one clock from the one before it, or else the first of the
/// path, of S5, S6, S8, S12, S13 and S15 the first that has the refusal. Takes no memory, and its time is linear in the
/// text.
pub(crate) fn token_at_fault(text: &[u8], fault: SvfFault) -> Option<usize>
    ensures { result ≡ spec.token_at_fault text.now fault }
{
    let others = fault.statement.checked_sub(1)?;
    let (first, words) = statement_behind(text, others)?;
    let command = command_of(first.text)?;
    if is_misfit(fault.code) {
        first_misfit(behind_command(command)?, words)
    } else if is_gap(fault.code) {
        gap_or_first(words)
    } else {
        first_with(fault.code.number(), command, words)
    }
}

fn is_misfit(code: Code) -> bool
    ensures { result ≡ spec.is_misfit code }
{
    matches!(code, Code::BadForm)
}

fn is_gap(code: Code) -> bool
    ensures { result ≡ spec.is_gap code }
{
    matches!(code, Code::BadPath)
}

/// Where the first state of a path stands that is not one clock from the one before it, or else its first state.
fn gap_or_first(words: Lexer<'_>) -> Option<usize>
    ensures { result ≡ spec.or_first (spec.gap_behind None (left words.entry)) (left words.entry) }
{
    match first_gap(words) {
        Some(start) => Some(start),
        None => next_start(words),
    }
}

fn first_gap(words: Lexer<'_>) -> Option<usize>
    ensures { result ≡ spec.gap_behind None (left words.entry) }
{
    let mut rest = words;
    let mut before = None;
    while let Some(Ok(token)) = rest.next() {
        if is_semi(token.kind) {
            return None;
        }
        let state = state_of(token.text);
        if !may_follow(before, state) {
            return Some(token.start);
        }
        before = state;
    }
    None
}

/// Whether a state is one clock from the one before, where both are states.
fn may_follow(before: Option<State>, state: Option<State>) -> bool
    ensures { result ≡ spec.may_follow before state }
{
    match (before, state) {
        (Some(from), Some(to)) => from.step(to.entered_by()) == to,
        _ => true,
    }
}

/// Where the next token stands, if there is one.
fn next_start(words: Lexer<'_>) -> Option<usize>
    ensures { result ≡ spec.next_start (left words.entry) }
{
    let mut rest = words;
    match rest.next() {
        Some(Ok(token)) => Some(token.start),
        _ => None,
    }
}

/// The first token of the statement that stands behind so many others, and what is behind it.
fn statement_behind(text: &[u8], others: usize) -> Option<(Token<'_>, Lexer<'_>)>
    ensures found { MatchOption result (spec.statement_behind false others (items_of text.now) ≡ [])
        (λ p. spec.statement_behind false others (items_of text.now) ≡ Ok (lexeme p.0) ∷ left p.1) }
    ensures few { IfSome result (λ p. spec.bytes_in (left p.1) < 2 ^ 64) }
{
    svf_lex::tokens_are_slices_in_order();
    let mut rest = Lexer::new(text);
    let mut before = others;
    let mut is_open = false;
    while let Some(Ok(token)) = rest.next() {
        match token.kind {
            Kind::Semi => is_open = false,
            _ if is_open => {}
            _ if before == 0 => return Some((token, rest)),
            _ => {
                before -= 1;
                is_open = true;
            }
        }
    }
    None
}

/// Where the first token of a statement stands that has the refusal of this number.
fn first_with(number: u8, command: Command, words: Lexer<'_>) -> Option<usize>
    requires { spec.bytes_in (left words) < 2 ^ 64 }
    ensures { result
        ≡ spec.first_with number command (len_value (spec.next_word (left words.entry))) false (left words.entry) }
{
    let length = length_value(next_word(words));
    let mut rest = words;
    let mut is_inside = false;
    let mut ahead = digits_ahead(rest);
    while let Some(Ok(token)) = rest.next() {
        if is_semi(token.kind) {
            return None;
        }
        ahead = ahead_behind(token, ahead, rest);
        if is_number_of(
            token_fault(command, length, is_inside, token, rest, ahead),
            number,
        ) {
            return Some(token.start);
        }
        is_inside = is_inside_behind(token.kind, is_inside);
    }
    None
}

/// How many digits the runs have that stand behind a token, where so many stood before it.
fn ahead_behind(token: Token<'_>, ahead: usize, rest: Lexer<'_>) -> usize
    requires before { ahead ≡ spec.with_run token.kind (length token.text.now) (spec.digits_ahead (left rest)) }
    requires few { spec.bytes_in (left rest) < 2 ^ 64 }
    ensures { result ≡ spec.digits_ahead (left rest.entry) }
{
    match token.kind {
        Kind::Run => ahead - token.text.len(),
        _ => digits_ahead(rest),
    }
}

/// What a token has against itself, of a statement of this command and length, within brackets or not, before these
/// tokens with so many digits.
fn token_fault(
    command: Command,
    length: Option<usize>,
    is_inside: bool,
    token: Token<'_>,
    rest: Lexer<'_>,
    ahead: usize,
) -> Option<Code>
    requires { ahead ≡ spec.digits_ahead (left rest) }
    ensures { result ≡ spec.token_fault command length is_inside (lexeme token.entry) (left rest.entry) }
{
    match token.kind {
        Kind::Run => {
            if is_inside {
                digits_fault(length, token.text, ahead)
            } else {
                word_fault(command, token.text, next_word(rest))
            }
        }
        _ => None,
    }
}

fn is_semi(kind: Kind) -> bool
    ensures { result ≡ misfits.is_semi kind }
{
    matches!(kind, Kind::Semi)
}

/// Whether brackets are open behind a token.
fn is_inside_behind(kind: Kind, is_inside: bool) -> bool
    ensures { result ≡ spec.is_inside_behind kind is_inside }
{
    match kind {
        Kind::Open => true,
        Kind::Close => false,
        _ => is_inside,
    }
}

fn is_number_of(fault: Option<Code>, number: u8) -> bool
    ensures { result ≡ spec.is_number_of fault number }
{
    match fault {
        Some(code) => code.number() == number,
        None => false,
    }
}

/// The word that stands next.
fn next_word<'a>(words: Lexer<'a>) -> &'a [u8]
    ensures { result.now ≡ spec.next_word (left words.entry) }
{
    let mut rest = words;
    match rest.next() {
        Some(Ok(token)) => token.text,
        _ => &[],
    }
}

/// How many digits the runs have that stand next.
fn digits_ahead(words: Lexer<'_>) -> usize
    requires { spec.bytes_in (left words) < 2 ^ 64 }
    ensures { result ≡ spec.digits_ahead (left words.entry) }
{
    let mut rest = words;
    let mut digits = 0;
    while let Some(Ok(token)) = rest.next() {
        match token.kind {
            Kind::Run => digits += token.text.len(),
            _ => return digits,
        }
    }
    digits
}

/// What a run of digits has against itself, in a scan whose length has this value and before so many digits of its
/// field.
fn digits_fault(length: Option<usize>, digits: &[u8], later: usize) -> Option<Code>
    ensures { result ≡ spec.digits_fault length digits.now later }
{
    if !is_hexadecimal(digits) {
        return Some(Code::BadNumber);
    }
    match length {
        Some(bits) if has_one_beyond(digits, bits.saturating_sub(later.saturating_mul(4))) => {
            Some(Code::TooWide)
        }
        _ => None,
    }
}

/// What a word outside brackets has against itself, before this one.
fn word_fault(command: Command, word: &[u8], next: &[u8]) -> Option<Code>
    ensures { result ≡ spec.word_fault command word.now next.now }
{
    match command {
        Command::EndDr | Command::EndIr => state_fault(word),
        Command::State if reads(next, b";") => state_fault(word),
        Command::Frequency if is_number(word) => refusal(period(word)),
        Command::Scan(which) if is_number(word) => length_fault(which, length(word)),
        Command::RunTest => run_test_fault(word, next),
        _ => None,
    }
}

fn run_test_fault(word: &[u8], next: &[u8]) -> Option<Code>
    ensures { result ≡ spec.run_test_fault word.now next.now }
{
    if is_number(word) {
        if reads(next, b"SEC") {
            refusal(time(word))
        } else {
            refusal(count(word))
        }
    } else if reads(word, b"SCK") {
        Some(Code::Unsupported)
    } else {
        state_fault(word)
    }
}

fn length_fault(which: Which, length: Result<usize, Code>) -> Option<Code>
    ensures { result ≡ spec.length_fault which length }
{
    match (length, which) {
        (Err(code), _) => Some(code),
        (Ok(0), Which::Sdr | Which::Sir) => Some(Code::EmptyScan),
        _ => None,
    }
}

fn state_fault(word: &[u8]) -> Option<Code>
    ensures { result ≡ spec.state_fault word.now }
{
    match state_of(word) {
        Some(state) if !state.is_stable() => Some(Code::BadState),
        _ => None,
    }
}

fn refusal<T: Drop>(said: Result<T, Code>) -> Option<Code>
    ensures { result ≡ spec.refusal said }
{
    match said {
        Ok(_) => None,
        Err(code) => Some(code),
    }
}
