//! The waves of a play, drawn into a file.

use byte_streams::{Counted, Plain};
use command_line::{InputFault, Planned, Request, Waves, head_of, is_in_use};
use play_explained::plain::{Kind, Program};
use play_waves::{Extras, Stage, Undrawn, WithoutStrings, begins_as_waves, write_waves};
use std::alloc::Global;
use std::fs::File;
use std::io::{BufWriter, Write};

/// So many bytes of a file tell whether it holds waves.
const HEAD: u64 = 256;

/// Whether a file of waves may be made anew: nothing is in it but waves of the program, and the request has no other
/// use for it.
pub(crate) fn may_be_made(
    rt: &HostRuntime,
    alloc: Global,
    name: &str,
    request: &Request<'_>,
    descriptions: &[String],
) -> Result<bool, InputFault> {
    if is_in_use(rt, name, request, descriptions)? {
        return Ok(false);
    }
    let head = head_of(rt, alloc, name, HEAD)?;
    Ok(head.is_empty() || begins_as_waves(&head))
}

/// Draws the waves of an accepted program, as a player of this kind plays it on the board of a plan, into a file, as
/// they are asked for.
pub(crate) fn draw_waves(
    alloc: Global,
    program: &Program,
    planned: &Planned,
    kind: Kind,
    waves: Waves<'_>,
    file: File,
) -> Result<(), Undrawn> {
    let Ok(mut writer) = BufWriter::new(alloc, file) else {
        return Err(Undrawn::NoMemory);
    };
    // Made last: it is dear to take apart.
    let Ok(stage) = Stage::powered_up(alloc, planned.plan(), kind) else {
        return Err(Undrawn::NoMemory);
    };
    let extras = Extras {
        names: waves.names,
        tdos: waves.tdos,
        drives: waves.drives,
    };
    let written = if waves.plain {
        let mut lines = WithoutStrings::new(alloc, &mut writer);
        let mut out = Counted::new(Plain(&mut lines));
        write_waves(program, stage, waves.fails, extras, &mut out).is_ok()
    } else {
        let mut out = Counted::new(Plain(&mut writer));
        write_waves(program, stage, waves.fails, extras, &mut out).is_ok()
    };
    if written && writer.flush().is_ok() {
        Ok(())
    } else {
        Err(Undrawn::Broken)
    }
}
