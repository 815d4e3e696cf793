//! What the words of a board file say of a device's core, of EXTEST, and of a net's pull.
ghost use Rattle.std.specs.Prelude.{◌≡◌, ◌==◌, map, reverse, option_map, IfOk};
ghost use Rattle.board_plan.specs.Words as spec;

use chip_instructions::Bits;
use pin_nets::Pull;
use std::alloc::{AllocError, Global};

/// The core's bits, cell 0 first: a text writes them as 0s and 1s with cell 0 rightmost; where none is given, as many
/// 0s as there are cells. Refused where memory runs out.
pub fn core_bits(alloc: Global, cells: usize, core: Option<&str>) -> Result<Bits, AllocError>
    ensures { IfOk result (λ b. b ≡ spec.core_of cells (option_map (λ s. s.now) core.entry)) }
{
    match core {
        None => Bits::zeros(alloc, cells),
        Some(text) => written_bits(alloc, text.as_bytes()),
    }
}

/// The bits that 0s and 1s write, the rightmost first.
fn written_bits(alloc: Global, text: &[u8]) -> Result<Bits, AllocError>
    ensures { IfOk result (λ b. b ≡ map (λ c. c == spec.one_digit) (reverse text.now)) }
{
    let len = text.len();
    let mut bits = Bits::zeros(alloc, len)?;
    for i in 0..len {
        bits.set(i, text[len - 1 - i] == b'1');
    }
    Ok(bits)
}

/// Whether EXTEST captures the update stage: the text is `update`, and none is no.
pub fn is_update(text: Option<&str>) -> bool
    ensures { result ≡ spec.is_update (option_map (λ s. s.now) text.entry) }
{
    match text {
        Some(text) => text == "update",
        None => false,
    }
}

/// The pull of a net: `up` and `down` are those, and any other text or none is no pull.
pub fn pull_of(text: Option<&str>) -> Pull
    ensures { result ≡ spec.pull_of (option_map (λ s. s.now) text.entry) }
{
    match text {
        Some("up") => Pull::Up,
        Some("down") => Pull::Down,
        _ => Pull::Free,
    }
}
