//! What is told of input that no run comes of: a board that is not made, a file that cannot be read, want of memory.

ghost use Rattle.std.specs.Prelude.{◌≡◌, codes};
ghost use Rattle.byte_streams.specs.Writes.{WritesAll};
ghost use Rattle.jt_player.specs.Running.{Tells};
ghost use Rattle.jt_player.specs.Showing as showing;
ghost use Rattle.jt_player.specs.Showing.{board_refusal_line, board_refusal_status, unreadable_line};

use byte_streams::{Broken, Counted, Sink, put_all, put_pieces};
use output_words::{Status, write_shown};
use play_direct::{BoardFault, BsdlFault};

/// Writes the line of a board that is not made: `board C5 UnknownPin`, the refusal of a description in place of C4
/// (`bsdl B6 BadCapture`), `memory` in place of C8. Answers the exit status: 2 refused, 4 want of memory.
///
/// `Broken` comes exactly where the writer's first failure came in this call.
pub fn refuse_board<E: Sink>(fault: &BoardFault, err: &mut Counted<E>) -> Result<u8, Broken>
    requires { err.old.failures ≡ 0 }
    ensures { Tells E.contents err.old err.new (board_refusal_line fault.now) (board_refusal_status fault.now)
        result }
{
    put_pieces(err, &[board_words(fault).as_bytes(), b"\n"])?;
    Ok(refusal_status(fault).number())
}

/// Writes the line of a file that cannot be read, `file NAME`, where a control byte and a backslash of the name stand
/// as `\x0a` does. Answers the exit status of refused input, 2.
///
/// `Broken` comes exactly where the writer's first failure came in this call.
pub fn refuse_file<E: Sink>(name: &str, err: &mut Counted<E>) -> Result<u8, Broken>
    requires { err.old.failures ≡ 0 }
    ensures { Tells E.contents err.old err.new (unreadable_line name.now) 2 result }
{
    write_unreadable(name, err)?;
    Ok(Status::Refused.number())
}

/// Writes the line of a file that cannot be read.
#[tactic(auto, using(byte_streams::proofs::Fronts::fronts))]
fn write_unreadable<E: Sink>(name: &str, err: &mut Counted<E>) -> Result<(), Broken>
    requires { err.old.failures ≡ 0 }
    ensures { WritesAll E.contents err.old err.new (unreadable_line name.now) result }
{
    put_all(err, b"file ")?;
    write_shown(name, err)?;
    put_all(err, b"\n")
}

/// Writes that memory ran out, `memory`. Answers the exit status that says so, 4.
///
/// `Broken` comes exactly where the writer's first failure came in this call.
pub fn refuse_memory<E: Sink>(err: &mut Counted<E>) -> Result<u8, Broken>
    requires { err.old.failures ≡ 0 }
    ensures { Tells E.contents err.old err.new (codes "memory\n") 4 result }
{
    put_all(err, b"memory\n")?;
    Ok(Status::NoMemory.number())
}

fn refusal_status(fault: &BoardFault) -> Status
    ensures { result ≡ showing.refusal_status fault.now }
{
    match fault {
        BoardFault::NoMemory => Status::NoMemory,
        _ => Status::Refused,
    }
}

fn board_words(fault: &BoardFault) -> &'static str
    ensures { result.now ≡ showing.board_words fault.now }
{
    match fault {
        BoardFault::BadToml => "board C1 BadToml",
        BoardFault::BadField(_) => "board C2 BadField",
        BoardFault::UnknownFile(_) => "board C3 UnknownFile",
        BoardFault::Bsdl(fault) => bsdl_words(fault),
        BoardFault::UnknownPin(_) => "board C5 UnknownPin",
        BoardFault::PinTwice(_) => "board C6 PinTwice",
        BoardFault::TooLarge => "board C7 TooLarge",
        BoardFault::NoMemory => "memory",
        BoardFault::CoreLoop(_) => "board C9 CoreLoop",
    }
}

fn bsdl_words(fault: &BsdlFault) -> &'static str
    ensures { result.now ≡ showing.bsdl_words fault.now }
{
    match fault {
        BsdlFault::BadToken(_) => "bsdl B1 BadToken",
        BsdlFault::BadForm(_) => "bsdl B2 BadForm",
        BsdlFault::Missing(_) => "bsdl B3 Missing",
        BsdlFault::Twice(_) => "bsdl B4 Twice",
        BsdlFault::BadLength => "bsdl B5 BadLength",
        BsdlFault::BadCapture => "bsdl B6 BadCapture",
        BsdlFault::BadId => "bsdl B7 BadId",
        BsdlFault::BadCell(_) => "bsdl B8 BadCell",
        BsdlFault::TooLarge => "bsdl B9 TooLarge",
        BsdlFault::NoMemory => "bsdl B10 NoMemory",
    }
}
