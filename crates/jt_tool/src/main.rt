//! The command line of the player and its simulated board.
#![tactic(auto)]

mod diagnosed;
mod drawn;
mod explained;
mod inputs;
mod linked;
mod served;
mod statuses;
mod waves;

use crate::diagnosed::diagnose_log;
use crate::drawn::draw_play;
use crate::explained::{play_accepted, tell_unmade};
use crate::inputs::{read_accepted, read_input, read_program};
use crate::linked::{loop_over_socket, play_on_server};
use crate::served::serve;
use crate::statuses::{or_lost, status_of, tell_line, tell_memory};
use board_description::write_description;
use byte_streams::{Counted, Plain};
use clap::error::ErrorKind as WordsFault;
use command_line::{
    Planned, Request, Server, StandIns, Task, Unmade, Waves, command_words, make_board, parse,
    plan_board,
};
use output_words::Status;
use play_coverage::write_cover;
use play_explained::plain::{Board, Kind, Program, check_program};
use std::alloc::Global;
use std::io;
use std::io::ErrorKind;
use std::process::ExitCode;

/// What is told of words that are no text.
const NOT_UTF8: &str = "a word of the command line is not UTF-8";

fn main(rt: HostRuntime) -> ExitCode {
    let status = match StandIns::new(&rt) {
        Ok(_until_the_end) => run_words(&rt),
        Err(_) => Status::Lost.number(), // a stream is closed, and a file could get its descriptor
    };
    ExitCode::from(status)
}

/// Does what the command line asks for. Answers the exit status.
fn run_words(rt: &HostRuntime) -> u8 {
    let alloc = rt.alloc();
    match command_words(rt, alloc) {
        Ok(words) => run(rt, alloc, words.as_slice()),
        Err(fault) if fault.kind() == ErrorKind::OutOfMemory => tell_memory(rt),
        Err(_) => tell_line(rt, NOT_UTF8, Status::Refused),
    }
}

/// Does what the words ask for. Answers the exit status.
fn run(rt: &HostRuntime, alloc: Global, args: &[String]) -> u8 {
    let mut words = Vec::new(alloc);
    for arg in args {
        if words.push(arg.as_str()).is_err() {
            return tell_memory(rt);
        }
    }
    match parse(alloc, &words) {
        Ok(request) => run_request(rt, alloc, &request),
        Err(fault) => refuse_words(rt, &fault),
    }
}

/// Tells what is wrong with the words, or gives the help that they ask for.
fn refuse_words<R: Print + Eprint>(rt: &R, fault: &clap::Error) -> u8 {
    if fault.kind() == WordsFault::OutOfMemory {
        return tell_memory(rt);
    }
    if fault.print(rt).is_err() {
        Status::Lost.number()
    } else if fault.exit_code() == 0 {
        Status::Pass.number()
    } else {
        Status::Refused.number()
    }
}

/// Does what is asked for. A board is planned before a text is read.
fn run_request(rt: &HostRuntime, alloc: Global, request: &Request<'_>) -> u8 {
    match request.task {
        Task::Connect {
            server,
            all,
            explain,
        } => connect_text(rt, alloc, request.svf, kind_of(all), explain, server),
        task if keeps_plan(task) => run_planned(rt, alloc, request),
        _ => run_unplanned(rt, alloc, request),
    }
}

/// Whether a plan is kept beside its board: where waves are drawn, or reasons found, on the same board, and where the
/// plan is all that is wanted.
fn keeps_plan(task: Task<'_>) -> bool {
    match task {
        Task::Describe { .. } | Task::Cover { .. } | Task::Diagnose { .. } => true,
        _ => explains(task) || waves_of(task).is_some(),
    }
}

/// Whether it is to be told why a bit fails, and where a refusal lies.
fn explains(task: Task<'_>) -> bool {
    match task {
        Task::Play { explain, .. }
        | Task::Check { explain }
        | Task::Loop { explain, .. }
        | Task::Serve { explain, .. }
        | Task::Connect { explain, .. }
        | Task::Describe { explain }
        | Task::Cover { explain, .. }
        | Task::Diagnose { explain, .. } => explain,
    }
}

/// How waves are drawn, where their file is named.
fn waves_of<'a>(task: Task<'a>) -> Option<Waves<'a>> {
    match task {
        Task::Play { vcd, .. } => vcd,
        _ => None,
    }
}

/// The kind of player that is asked for: one that tells all failures plays on.
pub(crate) fn kind_of(all: bool) -> Kind {
    if all { Kind::PlaysOn } else { Kind::Stops }
}

/// Does with a board what is asked for, without its plan.
fn run_unplanned(rt: &HostRuntime, alloc: Global, request: &Request<'_>) -> u8 {
    match make_board(rt, alloc, request.board) {
        Ok(mut board) => run_on_board(rt, alloc, request, &mut board, None),
        Err(fault) => refuse_board(rt, &fault, false),
    }
}

/// Plans a board, and does with the plan what is asked for.
fn run_planned(rt: &HostRuntime, alloc: Global, request: &Request<'_>) -> u8 {
    let explain = explains(request.task);
    match plan_board(rt, alloc, request.board, explain) {
        Ok(planned) => run_on_plan(rt, alloc, request, &planned),
        Err(fault) => refuse_board(rt, &fault, explain),
    }
}

/// Tells why no board was made, and where it is asked for where that lies. Answers the exit status.
fn refuse_board(rt: &HostRuntime, fault: &Unmade, explain: bool) -> u8 {
    let mut err = Counted::new(Plain(rt.stderr()));
    or_lost(tell_unmade(rt.alloc(), fault, explain, &mut err))
}

/// Describes the board of a plan, tells which of its faults a text would miss or give what a log says, or powers it up
/// and does with it what is asked for.
fn run_on_plan(rt: &HostRuntime, alloc: Global, request: &Request<'_>, planned: &Planned) -> u8 {
    match request.task {
        Task::Describe { .. } => describe_board(rt, alloc, planned),
        Task::Cover { listed, explain } => {
            cover_board(rt, alloc, request.svf, planned, listed, explain)
        }
        Task::Diagnose { log, explain } => {
            diagnose_board(rt, alloc, request.svf, planned, log, explain)
        }
        task => match waves_of(task) {
            Some(waves) => draw_play(rt, alloc, request, explains(task), waves, planned),
            None => run_powered(rt, alloc, request, planned),
        },
    }
}

/// Describes the board of a plan. Answers the exit status.
fn describe_board(rt: &HostRuntime, alloc: Global, planned: &Planned) -> u8 {
    let mut out = Counted::new(Plain(io::writer(rt)));
    match write_description(alloc, planned.plan(), &mut out) {
        Ok(()) => Status::Pass.number(),
        Err(fault) => status_of(rt, Err(fault)),
    }
}

/// Tells which faults of the board of a plan a text would miss. Answers the exit status.
fn cover_board(
    rt: &HostRuntime,
    alloc: Global,
    name: Option<&str>,
    planned: &Planned,
    listed: bool,
    explain: bool,
) -> u8 {
    match read_program(rt, alloc, name, explain) {
        Ok(program) => cover_program(rt, alloc, planned, &program, listed),
        Err(status) => status,
    }
}

/// Tells which faults of the board of a plan an accepted program would miss. Answers the exit status.
fn cover_program(
    rt: &HostRuntime,
    alloc: Global,
    planned: &Planned,
    program: &Program,
    listed: bool,
) -> u8 {
    let mut out = Counted::new(Plain(io::writer(rt)));
    let told = write_cover(alloc, planned.plan(), program, listed, &mut out);
    status_of(rt, told)
}

/// Tells which faults of the board of a plan give just what a log says of a play of a text. Answers the exit status.
fn diagnose_board(
    rt: &HostRuntime,
    alloc: Global,
    name: Option<&str>,
    planned: &Planned,
    log: Option<&str>,
    explain: bool,
) -> u8 {
    match read_program(rt, alloc, name, explain) {
        Ok(program) => diagnose_program(rt, alloc, planned, &program, log, explain),
        Err(status) => status,
    }
}

/// The same of a play of an accepted program. The log comes from standard input where no file of it is named.
fn diagnose_program(
    rt: &HostRuntime,
    alloc: Global,
    planned: &Planned,
    program: &Program,
    log: Option<&str>,
    explain: bool,
) -> u8 {
    match read_input(rt, alloc, log) {
        Ok(text) => diagnose_log(rt, alloc, planned, program, &text, explain),
        Err(status) => status,
    }
}

/// Powers the board of a plan up, and does with it what is asked for.
fn run_powered(rt: &HostRuntime, alloc: Global, request: &Request<'_>, planned: &Planned) -> u8 {
    match planned.board(alloc) {
        Ok(mut board) => run_on_board(rt, alloc, request, &mut board, Some(planned)),
        Err(_) => tell_memory(rt),
    }
}

/// Does with a board what is asked for; where a plan is given, it is told why bits fail, by the board of that plan.
fn run_on_board(
    rt: &HostRuntime,
    alloc: Global,
    request: &Request<'_>,
    board: &mut Board,
    planned: Option<&Planned>,
) -> u8 {
    match request.task {
        Task::Serve { serving, .. } => or_lost(serve(rt, board, serving)),
        Task::Loop { all, explain } => {
            loop_text(
                rt,
                alloc,
                request.svf,
                kind_of(all),
                explain,
                board,
                planned,
            )
        }
        task => run_text(rt, alloc, request.svf, task, board, planned),
    }
}

/// Plays a text on a board over a connection of the program with itself. Answers the exit status.
fn loop_text(
    rt: &HostRuntime,
    alloc: Global,
    name: Option<&str>,
    kind: Kind,
    explain: bool,
    board: &mut Board,
    planned: Option<&Planned>,
) -> u8 {
    match read_accepted(rt, alloc, name, explain) {
        Ok((text, program)) => {
            let told = loop_over_socket(rt, alloc, kind, program, &text, board, planned);
            status_of(rt, told)
        }
        Err(status) => status,
    }
}

/// Plays a text on a server. Answers the exit status.
fn connect_text(
    rt: &HostRuntime,
    alloc: Global,
    name: Option<&str>,
    kind: Kind,
    explain: bool,
    server: Server<'_>,
) -> u8 {
    match read_accepted(rt, alloc, name, explain) {
        Ok((text, program)) => play_on_server(rt, alloc, kind, program, &text, explain, server),
        Err(status) => status,
    }
}

/// Plays a text on a board, or checks it; where a plan is given, it is told why bits fail, by the board of that plan.
fn run_text(
    rt: &HostRuntime,
    alloc: Global,
    name: Option<&str>,
    task: Task<'_>,
    board: &mut Board,
    planned: Option<&Planned>,
) -> u8 {
    match read_accepted(rt, alloc, name, explains(task)) {
        Ok((text, program)) => told_of(rt, alloc, &program, &text, task, board, planned),
        Err(status) => status,
    }
}

/// Plays an accepted program of a text on a board, or tells that it is accepted. Answers the exit status.
pub(crate) fn told_of(
    rt: &HostRuntime,
    alloc: Global,
    program: &Program,
    text: &[u8],
    task: Task<'_>,
    board: &mut Board,
    planned: Option<&Planned>,
) -> u8 {
    let mut out = Counted::new(Plain(io::writer(rt)));
    match task {
        Task::Play { bytes, all, .. } => {
            let kind = kind_of(all);
            let told = play_accepted(alloc, kind, program, text, bytes, board, planned, &mut out);
            status_of(rt, told)
        }
        _ => or_lost(check_program(program, board, &mut out)),
    }
}
