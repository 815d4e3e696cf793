//! Calls that read a text.

use crate::given::{BEFORE, REFUSED, USUAL};
use bsdl::{BsdlFault, read};
use bsdl_device::Device;
use jt_player::accept;
use std::io;
use svf_parse::{Code, Statement, SvfFault, parse};
use svf_programs::Program;
use svf_settings::resolve;

/// A program's text is parsed.
pub(crate) fn parse_text(rt: &HostRuntime, text: &[u8]) -> io::Result<()> {
    let first = parse(rt.alloc(), text);
    if !wants_memory(&first) {
        rt.println(USUAL)?;
        return tell_statements(rt, first);
    }
    rt.println(REFUSED)?;
    tell_statements(rt, parse(rt.alloc(), text))
}

/// Whether a text of a program was refused for want of memory alone.
fn wants_memory<T>(found: &Result<T, SvfFault>) -> bool {
    matches!(found, Err(fault) if matches!(fault.code, Code::NoMemory) && fault.statement == 0)
}

fn tell_statements(rt: &HostRuntime, found: Result<Vec<Statement>, SvfFault>) -> io::Result<()> {
    match found {
        Ok(statements) => {
            let count = statements.len();
            rt.println(format_args!("{count} statements"))
        }
        Err(fault) => rt.println(fault),
    }
}

/// A program's statements are resolved.
pub(crate) fn resolve_text(rt: &HostRuntime, text: &[u8]) -> io::Result<()> {
    let (Ok(statements), Ok(again)) = (parse(rt.alloc(), text), parse(rt.alloc(), text)) else {
        return rt.println(BEFORE);
    };
    let first = resolve(rt.alloc(), statements);
    if !wants_memory(&first) {
        rt.println(USUAL)?;
        return tell_program(rt, first);
    }
    rt.println(REFUSED)?;
    tell_program(rt, resolve(rt.alloc(), again))
}

/// A program's text is accepted, statement by statement.
pub(crate) fn accept_text(rt: &HostRuntime, text: &[u8]) -> io::Result<()> {
    let first = accept(rt.alloc(), text);
    if !wants_memory(&first) {
        rt.println(USUAL)?;
        return tell_program(rt, first);
    }
    rt.println(REFUSED)?;
    tell_program(rt, accept(rt.alloc(), text))
}

fn tell_program(rt: &HostRuntime, found: Result<Program, SvfFault>) -> io::Result<()> {
    match found {
        Ok(program) => {
            let (statements, steps) = (program.statements(), program.len());
            rt.println(format_args!("{statements} statements {steps} steps"))
        }
        Err(fault) => rt.println(fault),
    }
}

/// A device's description is read.
pub(crate) fn read_text(rt: &HostRuntime, text: &[u8]) -> io::Result<()> {
    let first = read(rt.alloc(), text);
    if !matches!(first, Err(BsdlFault::NoMemory)) {
        rt.println(USUAL)?;
        return tell_device(rt, first);
    }
    rt.println(REFUSED)?;
    tell_device(rt, read(rt.alloc(), text))
}

fn tell_device(rt: &HostRuntime, found: Result<Device, BsdlFault>) -> io::Result<()> {
    match found {
        Ok(device) => {
            let (cells, ports) = (device.cells().len(), device.port_count());
            rt.println(format_args!("{cells} cells {ports} ports"))
        }
        Err(fault) => rt.println(fault),
    }
}
