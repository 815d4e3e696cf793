//! Why a bit fails and where a refusal lies, for a user who asks.
ghost use Rattle.std.specs.Prelude.{◌≡◌};

use crate::statuses::or_lost;
use board_description::Untold;
use byte_streams::{Broken, Counted, Plain, Sink};
use command_line::{NoToml, Planned, RefusedFile, RefusedKey, Unmade};
use output_words::Status;
use play_explained::plain::{
    Board, BoardFault, Kind, Program, SvfFault, accept, refuse_board, refuse_file, refuse_memory,
    refuse_text, run_program,
};
use play_explained::refusals::{
    place_in_description, refused_board, refused_description, refused_key, refused_text,
    refused_toml,
};
use play_explained::run_play_explained;
use std::alloc::Global;

/// The program of a text. Else tells why it is refused, and where it is asked for where that lies, and answers the exit
/// status.
pub(crate) fn accept_text(
    rt: &HostRuntime,
    alloc: Global,
    text: &[u8],
    explain: bool,
) -> Result<Program, u8> {
    match accept(alloc, text) {
        Ok(program) => Ok(program),
        Err(fault) => {
            let mut err = Counted::new(Plain(rt.stderr()));
            Err(or_lost(refuse_program(text, fault, explain, &mut err)))
        }
    }
}

/// Plays an accepted program of a text on a board; where its plan is given, it is told of each bit that fails why, as
/// it is found on the board of that plan. Answers the exit status.
pub(crate) fn play_accepted<W: Sink>(
    alloc: Global,
    kind: Kind,
    program: &Program,
    text: &[u8],
    bytes: bool,
    board: &mut Board,
    planned: Option<&Planned>,
    out: &mut Counted<W>,
) -> Result<u8, Untold>
    requires { out.old.failures ≡ 0 }
{
    match planned {
        Some(planned) => run_play_explained(
            alloc,
            kind,
            program,
            text,
            bytes,
            board,
            planned.plan(),
            out,
        ),
        None => Ok(run_program(kind, program, board, bytes, out)?),
    }
}

/// Tells why a text is refused, and where it is asked for where that lies. Answers the exit status.
fn refuse_program<E: Sink>(
    text: &[u8],
    fault: SvfFault,
    explain: bool,
    err: &mut Counted<E>,
) -> Result<u8, Broken>
    requires { err.old.failures ≡ 0 }
{
    let status = refuse_text(fault, err)?;
    if explain && status == Status::Refused.number() && err.failures() == 0 {
        refused_text(text, fault, err)?;
    }
    Ok(status)
}

/// Tells why no board was made, and where it is asked for what the refusal names, or where in which file it lies.
/// Answers the exit status.
pub(crate) fn tell_unmade<E: Sink>(
    alloc: Global,
    fault: &Unmade,
    explain: bool,
    err: &mut Counted<E>,
) -> Result<u8, Broken>
    requires { err.old.failures ≡ 0 }
{
    match fault {
        Unmade::Unreadable(name) => refuse_file(name, err),
        Unmade::Refused(fault) => tell_refused(fault, explain, err),
        Unmade::NoToml(file) => tell_no_toml(file, err),
        Unmade::RefusedKey(key) => tell_key(key, err),
        Unmade::RefusedFile(file) => tell_file(alloc, file, err),
    }
}

/// Tells why a board file is refused, and where it is asked for the name that the refusal speaks of.
fn tell_refused<E: Sink>(
    fault: &BoardFault,
    explain: bool,
    err: &mut Counted<E>,
) -> Result<u8, Broken>
    requires { err.old.failures ≡ 0 }
{
    let status = refuse_board(fault, err)?;
    if explain {
        refused_board(fault, err)?;
    }
    Ok(status)
}

/// Tells that a text is no TOML, and where it stops being so.
fn tell_no_toml<E: Sink>(refused: &NoToml, err: &mut Counted<E>) -> Result<u8, Broken>
    requires { err.old.failures ≡ 0 }
{
    let status = refuse_board(&BoardFault::BadToml, err)?;
    if let Some(place) = refused.place {
        refused_toml(&refused.text, place, err)?;
    }
    Ok(status)
}

/// Tells that a key of a board file is at fault, which, and in which table.
fn tell_key<E: Sink>(refused: &RefusedKey, err: &mut Counted<E>) -> Result<u8, Broken>
    requires { err.old.failures ≡ 0 }
{
    let status = refuse_board(&refused.fault, err)?;
    if let Some(table) = refused.table {
        refused_key(table, refused.key(), err)?;
    }
    Ok(status)
}

/// Tells that the description in a file is refused, and where in it the refusal lies, or what it names.
fn tell_file<E: Sink>(alloc: Global, file: &RefusedFile, err: &mut Counted<E>) -> Result<u8, Broken>
    requires { err.old.failures ≡ 0 }
{
    let BoardFault::Bsdl(fault) = &file.fault else {
        return refuse_board(&file.fault, err);
    };
    let text = file.text.as_slice();
    match place_in_description(alloc, text, fault) {
        Ok(place) => {
            let status = refuse_board(&file.fault, err)?;
            refused_description(file.name.as_str(), text, fault, place, err)?;
            Ok(status)
        }
        Err(_) => refuse_memory(err),
    }
}
