//! Which faults give just what a log says of a play.

use crate::statuses::{or_lost, status_of};
use byte_streams::{Counted, Plain};
use command_line::Planned;
use play_diagnosis::{Said, read_log, refuse_log, write_diagnosis};
use play_explained::plain::Program;
use std::alloc::Global;
use std::io;

/// Reads a log of a play of an accepted program, and tells which faults of the board of a plan give just what it says;
/// of one that cannot be read why not, and where it is asked for where that lies. Answers the exit status.
pub(crate) fn diagnose_log(
    rt: &HostRuntime,
    alloc: Global,
    planned: &Planned,
    program: &Program,
    log: &[u8],
    explain: bool,
) -> u8 {
    match read_log(program, log) {
        Ok(said) => diagnose_said(rt, alloc, planned, program, &said),
        Err(fault) => {
            let mut err = Counted::new(Plain(rt.stderr()));
            or_lost(refuse_log(fault, explain, &mut err))
        }
    }
}

/// Tells which faults of the board of a plan give just what was said.
fn diagnose_said(
    rt: &HostRuntime,
    alloc: Global,
    planned: &Planned,
    program: &Program,
    said: &Said,
) -> u8 {
    let mut out = Counted::new(Plain(io::writer(rt)));
    let told = write_diagnosis(alloc, planned.plan(), program, said, &mut out);
    status_of(rt, told)
}
