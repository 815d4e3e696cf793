//! The largest texts: what they are, and that they take no more memory than they may.
use std::alloc::Global;
use std::test::Fail;
use svf_lex::Lexer;
use svf_parse::{Code, SvfFault, parse};
use svf_programs::{Action, Program};
use svf_settings::{resolve, resolve_text};

/// How many statements a text has, or its refusal.
fn count(alloc: Global, text: &[u8]) -> Result<usize, SvfFault> {
    match parse(alloc, text) {
        Ok(statements) => Ok(statements.len()),
        Err(fault) => Err(fault),
    }
}

/// The refusal at the statement that is one too many.
fn refused(code: Code) -> Result<usize, SvfFault> {
    Err(SvfFault {
        statement: 200_001,
        code,
    })
}

#[test]
fn as_many_statements_as_there_may_be(rt: HostRuntime) -> Result<(), Fail> {
    let mut text = Vec::new(rt.alloc());
    for _ in 0..200_000 {
        text.extend_from_slice(b"HDR 0;")?;
    }
    assert_eq!(rt; count(rt.alloc(), &text), Ok(200_000));
    text.extend_from_slice(b"HDR 0;")?;
    assert_eq!(rt; count(rt.alloc(), &text), refused(Code::TooLarge));
    text.truncate(1_200_000);
    text.extend_from_slice(b"HDR;")?;
    assert_eq!(rt; count(rt.alloc(), &text), refused(Code::BadForm));
    Ok(())
}

#[test]
fn a_text_of_slashes_is_one_comment(rt: HostRuntime) -> Result<(), Fail> {
    let text = vec![in rt.alloc(); b'/'; 1 << 20]?;
    assert!(rt; Lexer::new(&text).next().is_none());
    Ok(())
}

/// How many steps a text has, and how many bits they scan, where these are the same read statement by statement as by
/// the list of all.
fn sizes(alloc: Global, text: &[u8]) -> Option<(usize, u64)> {
    let listed = sizes_of(&resolve(alloc, parse(alloc, text).ok()?).ok()?);
    let read = sizes_of(&resolve_text(alloc, text).ok()?);
    if read == listed { Some(read) } else { None }
}

/// How many steps a program has, and how many bits they scan.
fn sizes_of(program: &Program) -> (usize, u64) {
    let mut bits: u64 = 0;
    for step in program.steps() {
        if let Action::Scan { vector, .. } = step.what {
            bits = bits.saturating_add(vector.len() as u64);
        }
    }
    (program.len(), bits)
}

/// A short text may mean many bits: they take no memory.
#[test]
fn many_long_vectors(rt: HostRuntime) -> Result<(), Fail> {
    let mut text = Vec::new(rt.alloc());
    text.extend_from_slice(b"SDR 1048576 TDI (0);")?;
    for _ in 1..200_000 {
        text.extend_from_slice(b"SDR 1048576;")?;
    }
    assert_eq!(rt; sizes(rt.alloc(), &text), Some((200_000, 209_715_200_000)));
    Ok(())
}
