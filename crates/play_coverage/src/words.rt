//! What verdicts and kinds of faults are called.

ghost use Rattle.std.specs.Prelude.{◌≡◌, ◌++◌, OnOk};
ghost use Rattle.play_coverage.specs.Lines as spec;
ghost use Rattle.play_coverage.specs.Lines.{failing_words};

use crate::outcomes::FaultKind;
use board_faults::Verdict;
use itoa::Buffer;
use output_words::put;
use play_model::{Ending, part_word};
use std::alloc::AllocError;

/// What is told of a way, a blank behind it.
pub(crate) fn verdict_word(verdict: Verdict) -> &'static [u8]
    ensures { result.now ≡ spec.verdict_word verdict }
{
    match verdict {
        Verdict::Invisible => b"invisible ",
        Verdict::Played(Ending::Pass) => b"missed ",
        Verdict::Played(_) => b"caught ",
    }
}

/// Puts the first bit that fails behind a text, a blank before it; nothing where none does.
pub(crate) fn put_failing(text: &mut Vec<u8>, verdict: Verdict) -> Result<(), AllocError>
    ensures { OnOk result (text.new.items ≡ text.old.items ++ failing_words verdict) }
{
    let Verdict::Played(Ending::Fail { command, part, bit }) = verdict else {
        return Ok(());
    };
    let mut number = Buffer::new();
    let mut place = Buffer::new();
    put(
        text,
        &[
            b" command ",
            number.format(command).as_bytes(),
            b" ",
            part_word(part).as_bytes(),
            b" bit ",
            place.format(bit).as_bytes(),
        ],
    )
}

/// What the faults of a kind are called together.
pub(crate) fn kind_word(kind: FaultKind) -> &'static [u8]
    ensures { result.now ≡ spec.kind_word kind }
{
    match kind {
        FaultKind::Opens => b"opens",
        FaultKind::Pulls => b"pulls",
        FaultKind::Stuck => b"stuck",
        FaultKind::Shorts => b"shorts",
    }
}
