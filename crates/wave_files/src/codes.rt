//! The codes of variables, and the lines of values.

ghost use Rattle.std.specs.Prelude.{◌≡◌, ◌<◌, ◌≤◌, ◌+◌, ◌++◌, ◌∷◌, []};
ghost use Rattle.byte_streams.specs.Writes.{WritesAll};
ghost use Rattle.wave_files.specs.Codes as spec;
ghost use Rattle.wave_files.specs.Codes.{base, binary, code, code_digit, further_digits, last_digits};
ghost use Rattle.wave_files.specs.Values.{byte_line, bits_line, ended, instruction_line, state_lines, word_line};

use crate::binary::binary_digits;
use byte_streams::{Broken, Counted, Sink, put_all};
use jt_bits::Bits;
use jt_tap::State;
use output_words::write_bits;

/// How many digits a code has to choose from.
const BASE: usize = 94;
/// The first of them.
const FIRST_DIGIT: u8 = b'!';

/// A form of a state's two lines has no more bytes than this.
const MOST_IN_FORM: usize = 24;
/// Where the first code stands in a form.
const FIRST_CODE_IN_FORM: usize = 6;
/// How far from its end the second one stands.
const SECOND_CODE_FROM_END: usize = 2;

/// Writes the code of a variable, and one byte behind it.
///
/// `Broken` comes exactly where the writer's first failure came in this call.
pub fn write_code<W: Sink>(number: usize, last: u8, out: &mut Counted<W>) -> Result<(), Broken>
    requires { out.old.failures ≡ 0 }
    ensures { WritesAll W.contents out.old out.new (code number ++ last ∷ []) result }
{
    let further = number / BASE;
    if further == 0 {
        return put_all(out, &[digit_of_code(number), last]);
    }
    let third = further / BASE;
    if third == 0 {
        return put_all(out, &[digit_of_code(number), digit_of_code(further), last]);
    }
    if third / BASE == 0 {
        return put_all(
            out,
            &[
                digit_of_code(number),
                digit_of_code(further),
                digit_of_code(third),
                last,
            ],
        );
    }
    put_all(
        out,
        &[
            digit_of_code(number),
            digit_of_code(further),
            digit_of_code(third),
            digit_of_code(third / BASE),
            last,
        ],
    )
}

/// The lowest digit of a number.
fn digit_of_code(number: usize) -> u8
    ensures { result ≡ code_digit number }
{
    (number % BASE) as u8 + FIRST_DIGIT
}

/// Writes what ends a line.
fn write_end<W: Sink>(number: usize, out: &mut Counted<W>) -> Result<(), Broken>
    requires { out.old.failures ≡ 0 }
    ensures { WritesAll W.contents out.old out.new (ended number) result }
{
    write_code(number, b'\n', out)
}

/// Writes the line of a level.
///
/// `Broken` comes exactly where the writer's first failure came in this call.
pub fn write_byte<W: Sink>(number: usize, value: u8, out: &mut Counted<W>) -> Result<(), Broken>
    requires { out.old.failures ≡ 0 }
    ensures { WritesAll W.contents out.old out.new (byte_line number value) result }
{
    let further = number / BASE;
    if further == 0 {
        return put_all(out, &[value, digit_of_code(number), b'\n']);
    }
    if further / BASE == 0 {
        return put_all(
            out,
            &[value, digit_of_code(number), digit_of_code(further), b'\n'],
        );
    }
    put_all(out, &[value])?;
    write_end(number, out)
}

/// Writes the two lines of a controller's state.
pub(crate) fn write_state<W: Sink>(
    number: usize,
    state: State,
    out: &mut Counted<W>,
) -> Result<(), Broken>
    requires none_lost { out.old.failures ≡ 0 }
    requires few { number ≤ 1000000 }
    ensures { WritesAll W.contents out.old out.new (state_lines number state) result }
{
    if (number + 1) / BASE == 0 {
        return write_short_state(number, state, out);
    }
    put_all(out, &state_form(state)[..FIRST_CODE_IN_FORM])?;
    write_end(number, out)?;
    write_word_line(number + 1, state.word().as_bytes(), out)
}

/// The same where both codes have one digit.
fn write_short_state<W: Sink>(
    number: usize,
    state: State,
    out: &mut Counted<W>,
) -> Result<(), Broken>
    requires none_lost { out.old.failures ≡ 0 }
    requires short { number + 1 < base }
    ensures { WritesAll W.contents out.old out.new (state_lines number state) result }
{
    let form = state_form(state);
    let mut lines = [0; MOST_IN_FORM];
    lines[..form.len()].copy_from_slice(form);
    lines[FIRST_CODE_IN_FORM] = digit_of_code(number);
    lines[form.len() - SECOND_CODE_FROM_END] = digit_of_code(number + 1);
    put_all(out, &lines[..form.len()])
}

/// Writes the line of a number above 0.
///
/// `Broken` comes exactly where the writer's first failure came in this call.
pub fn write_number<W: Sink>(
    number: usize,
    value: usize,
    out: &mut Counted<W>,
) -> Result<(), Broken>
    requires { out.old.failures ≡ 0 }
    ensures { WritesAll W.contents out.old out.new (bits_line number (binary value)) result }
{
    let (digits, start) = binary_digits(value);
    write_bits_line(number, &digits[start..], out)
}

/// Writes the line of bits.
///
/// `Broken` comes exactly where the writer's first failure came in this call.
pub fn write_bits_line<W: Sink>(
    number: usize,
    digits: &[u8],
    out: &mut Counted<W>,
) -> Result<(), Broken>
    requires { out.old.failures ≡ 0 }
    ensures { WritesAll W.contents out.old out.new (bits_line number digits.now) result }
{
    put_all(out, b"b")?;
    put_all(out, digits)?;
    put_all(out, b" ")?;
    write_end(number, out)
}

/// Writes the line of a word.
///
/// `Broken` comes exactly where the writer's first failure came in this call.
pub fn write_word_line<W: Sink>(
    number: usize,
    letters: &[u8],
    out: &mut Counted<W>,
) -> Result<(), Broken>
    requires { out.old.failures ≡ 0 }
    ensures { WritesAll W.contents out.old out.new (word_line number letters.now) result }
{
    put_all(out, b"s")?;
    put_all(out, letters)?;
    put_all(out, b" ")?;
    write_end(number, out)
}

/// Writes the line of an instruction, the third variable of its device.
pub(crate) fn write_instruction<W: Sink>(
    number: usize,
    bits: &Bits,
    out: &mut Counted<W>,
) -> Result<(), Broken>
    requires none_lost { out.old.failures ≡ 0 }
    requires few { number ≤ 1000000 }
    ensures { WritesAll W.contents out.old out.new (instruction_line number bits.now) result }
{
    put_all(out, b"b")?;
    write_bits(bits, out)?;
    put_all(out, b" ")?;
    write_end(number + 2, out)
}

/// The two lines of a state, in the coding of the standard's own example of a controller (IEEE Std 1149.1-2001, clause
/// 6.1) and as a word, with a blank for each of the codes.
fn state_form(state: State) -> &'static [u8]
    ensures { result.now ≡ spec.state_form state }
{
    match state {
        State::DrExit2 => b"b0000  \nsDREXIT2  \n",
        State::DrExit1 => b"b0001  \nsDREXIT1  \n",
        State::DrShift => b"b0010  \nsDRSHIFT  \n",
        State::DrPause => b"b0011  \nsDRPAUSE  \n",
        State::IrSelect => b"b0100  \nsIRSELECT  \n",
        State::DrUpdate => b"b0101  \nsDRUPDATE  \n",
        State::DrCapture => b"b0110  \nsDRCAPTURE  \n",
        State::DrSelect => b"b0111  \nsDRSELECT  \n",
        State::IrExit2 => b"b1000  \nsIREXIT2  \n",
        State::IrExit1 => b"b1001  \nsIREXIT1  \n",
        State::IrShift => b"b1010  \nsIRSHIFT  \n",
        State::IrPause => b"b1011  \nsIRPAUSE  \n",
        State::Idle => b"b1100  \nsIDLE  \n",
        State::IrUpdate => b"b1101  \nsIRUPDATE  \n",
        State::IrCapture => b"b1110  \nsIRCAPTURE  \n",
        State::Reset => b"b1111  \nsRESET  \n",
    }
}
