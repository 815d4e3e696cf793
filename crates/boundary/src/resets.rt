//! What a reset gives the cells of a boundary register, 64 of them at a time.

ghost use Rattle.std.specs.Prelude.{◌≡◌, ◌<◌, ℕ, if◌then◌else◌};
ghost use Rattle.jt_bits.specs.Packed.{has_bit};
ghost use Rattle.boundary.specs.Resets.{ResetsEach, is_reset};

use bsdl_device::Function;
use jt_bits::Bits;

/// Whether a reset gives a cell its disabling value.
pub(crate) fn is_reset(function: Function) -> bool
    ensures { result ≡ is_reset function }
{
    matches!(function, Function::ControlR)
}

/// Each marked cell takes its disabling value.
pub(crate) fn reset_all(marked: &Bits, disabling: &Bits, update: &mut Bits)
    ensures { ResetsEach marked.now disabling.now update.old update.new }
{
    let len = update.len();
    let mut at = 0;
    while at < len {
        let n = (len - at).min(64);
        let word = reset_word(
            marked.word_at(at),
            disabling.word_at(at),
            update.word_at(at),
        );
        update.put_run(at, word, n);
        at += n;
    }
}

/// What a reset leaves of 64 cells.
fn reset_word(marked: u64, disabling: u64, update: u64) -> u64
    ensures { (j : ℕ) → j < 64 → has_bit result j
        ≡ (if has_bit marked j then has_bit disabling j else has_bit update j) }
{
    disabling & marked | update & !marked
}
