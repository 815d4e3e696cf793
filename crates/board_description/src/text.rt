//! Opcodes and codes as texts that grow.
ghost use Rattle.std.specs.Prelude.{◌≡◌, ◌++◌, OnOk};
ghost use Rattle.board_description.specs.Described as spec;
ghost use Rattle.board_description.specs.Described.{pattern_digits};

use bsdl_device::{Device, Pattern};
use output_words::{digit_of, put, put_hexadecimal};
use std::alloc::AllocError;

/// A code has so many hexadecimal digits.
pub(crate) const CODE_DIGITS: usize = 8;

/// Puts an opcode behind a text, the highest bit first.
#[tactic(auto, using(crate::proofs::TextLaws::pattern_down))]
pub(crate) fn put_pattern(text: &mut Vec<u8>, pattern: &Pattern) -> Result<(), AllocError>
    ensures { OnOk result (text.new.items ≡ text.old.items ++ pattern_digits pattern.now) }
{
    let digits = pattern.bits();
    let mut i = digits.len();
    while i > 0 {
        i -= 1;
        text.push(pattern_digit_of(digits[i]))?;
    }
    Ok(())
}

/// Puts the identification code of a device behind a text, `none` where there is none.
pub(crate) fn put_code(text: &mut Vec<u8>, device: &Device) -> Result<(), AllocError>
    ensures { OnOk result (text.new.items ≡ text.old.items ++ spec.code_words device.now.idcode) }
{
    match device.idcode() {
        None => put(text, &[b"none"]),
        Some(code) => {
            put(text, &[b"0x"])?;
            put_hexadecimal(text, code, CODE_DIGITS)
        }
    }
}

/// The digit of an opcode's bit, X for either.
fn pattern_digit_of(bit: Option<bool>) -> u8
    ensures { result ≡ spec.pattern_digit bit }
{
    match bit {
        Some(bit) => digit_of(bit),
        None => b'X',
    }
}
