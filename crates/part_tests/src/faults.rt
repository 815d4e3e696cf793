//! The lines of faults that no clause says and the program does not print.
use jt_bits::HexFault;
use std::test::Fail;
use svf_lex::LexFault;
use svf_parse::Code;

/// The lines of these faults.
const LINES: &str = "\
byte 6 of the text belongs to no token, white space or comment
the statement that begins at byte 16 is not closed by a semicolon
memory
byte 12 is no hexadecimal digit
the digits have a 1 beyond the length
S16 NoMemory
";

#[test]
fn faults_tell_their_place(rt: HostRuntime) -> Result<(), Fail> {
    let told = format!(in rt.alloc();
        "{}\n{}\n{}\n{}\n{}\n{}\n",
        LexFault::BadByte(6),
        LexFault::Unclosed(16),
        HexFault::NoMemory,
        HexFault::BadDigit(12),
        HexFault::TooWide,
        Code::NoMemory
    )?;
    assert_eq!(rt; told.as_str(), LINES);
    Ok(())
}
