//! A play whose waves are drawn.

use crate::explained::accept_text;
use crate::inputs::{read_input, refuse_input};
use crate::statuses::tell_memory;
use crate::waves::{draw_waves, may_be_made};
use crate::{kind_of, told_of};
use command_line::{InputFault, Planned, Request, Task, Waves};
use output_words::Status;
use play_explained::plain::{Kind, Program};
use play_waves::{Undrawn, status_behind};
use std::alloc::Global;
use std::fs;
use std::fs::File;

/// Plays a text on the board of a plan, and draws its waves. Their file is made before the play, and drawn behind it.
pub(crate) fn draw_play(
    rt: &HostRuntime,
    alloc: Global,
    request: &Request<'_>,
    explain: bool,
    waves: Waves<'_>,
    planned: &Planned,
) -> u8 {
    match text_and_waves(rt, alloc, request, waves.file, planned.descriptions()) {
        Ok((text, file)) => {
            draw_text(
                rt,
                alloc,
                &text,
                request.task,
                explain,
                waves,
                planned,
                file,
            )
        }
        Err(status) => status,
    }
}

/// Reads the text of a play, and makes the file of its waves, where nothing is lost by that. Else tells why not, and
/// answers the exit status: nothing is written then.
fn text_and_waves(
    rt: &HostRuntime,
    alloc: Global,
    request: &Request<'_>,
    waves: &str,
    descriptions: &[String],
) -> Result<(Vec<u8>, File), u8> {
    match may_be_made(rt, alloc, waves, request, descriptions) {
        Ok(true) => {}
        Ok(false) => return Err(refuse_input(rt, waves, InputFault::Unreadable)),
        Err(fault) => return Err(refuse_input(rt, waves, fault)),
    }
    let text = read_input(rt, alloc, request.svf)?;
    match fs::create(rt, waves) {
        Ok(file) => Ok((text, file)),
        Err(fault) => Err(refuse_waves(rt, waves, InputFault::from(fault))),
    }
}

/// Accepts a text, plays its program on the board of a plan, and draws its waves into a file.
fn draw_text(
    rt: &HostRuntime,
    alloc: Global,
    text: &[u8],
    task: Task<'_>,
    explain: bool,
    waves: Waves<'_>,
    planned: &Planned,
    file: File,
) -> u8 {
    match accept_text(rt, alloc, text, explain) {
        Ok(program) => {
            let reasons = if explain { Some(planned) } else { None };
            let status = told_powered(rt, alloc, &program, text, task, planned, reasons);
            draw_behind(rt, alloc, &program, task, waves, planned, file, status)
        }
        Err(status) => status,
    }
}

/// Plays an accepted program of a text on the board of a plan, which is let go then; where reasons are asked for, they
/// are found on the board of that plan. Answers the exit status.
fn told_powered(
    rt: &HostRuntime,
    alloc: Global,
    program: &Program,
    text: &[u8],
    task: Task<'_>,
    planned: &Planned,
    reasons: Option<&Planned>,
) -> u8 {
    match planned.board(alloc) {
        Ok(mut board) => told_of(rt, alloc, program, text, task, &mut board, reasons),
        Err(_) => tell_memory(rt),
    }
}

/// Draws the waves of a play that ended with this status, where it was played at all. Answers the status, or that they
/// are not all drawn.
fn draw_behind(
    rt: &HostRuntime,
    alloc: Global,
    program: &Program,
    task: Task<'_>,
    waves: Waves<'_>,
    planned: &Planned,
    file: File,
    status: u8,
) -> u8 {
    if status != Status::Pass.number() && status != Status::Fail.number() {
        return status;
    }
    let kind = drawn_as(task, waves, status);
    let drawn = draw_waves(alloc, program, planned, kind, waves, file);
    match drawn {
        Ok(()) => {}
        Err(Undrawn::NoMemory) => return tell_memory(rt),
        Err(Undrawn::Broken) => {
            let _lost = refuse_waves(rt, waves.file, InputFault::Unreadable);
        }
    }
    status_behind(status, drawn)
}

/// The kind of player whose play is drawn, of one that ended with this status: where it is not told which bits fail, a
/// play without a failure is drawn as one that plays on, for which no board is needed that judges.
fn drawn_as(task: Task<'_>, waves: Waves<'_>, status: u8) -> Kind {
    let all = matches!(task, Task::Play { all: true, .. });
    kind_of(all || !waves.fails && status == Status::Pass.number())
}

/// Tells that a file of waves cannot be made, or that memory ran out for it. Answers the exit status.
fn refuse_waves(rt: &HostRuntime, name: &str, fault: InputFault) -> u8 {
    let status = refuse_input(rt, name, fault);
    match fault {
        InputFault::Unreadable => Status::Lost.number(),
        InputFault::NoMemory => status,
    }
}
