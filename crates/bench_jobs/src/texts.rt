//! Texts, piece by piece.

use std::alloc::{AllocError, Global};

/// How many digits a word of 64 bits has.
const WORD_DIGITS: usize = 16;

/// How many words of a field stand on a line, and how many digits.
const LINE_WORDS: usize = 4;

const LINE_DIGITS: usize = 64;

/// A text that grows.
#[derive(Drop)]
pub struct Text {
    bytes: Vec<u8>,
}

impl Text {
    /// An empty text with room for so many bytes.
    pub fn with_room(alloc: Global, room: usize) -> Result<Self, AllocError> {
        Ok(Text {
            bytes: Vec::with_capacity(alloc, room)?,
        })
    }

    pub fn bytes(&self) -> &[u8] {
        self.bytes.as_slice()
    }

    pub fn add(&mut self, piece: &str) -> Result<(), AllocError> {
        self.bytes.extend_from_slice(piece.as_bytes())
    }

    /// Adds a number in decimal digits.
    pub fn add_number(&mut self, number: usize) -> Result<(), AllocError> {
        let mut scale: usize = 1;
        let mut rest = number;
        for _ in 0..20 {
            if rest < 10 {
                break;
            }
            rest /= 10;
            scale = scale.wrapping_mul(10);
        }
        let mut rest = number;
        for _ in 0..20 {
            if scale == 0 {
                break;
            }
            let digit = rest.checked_div(scale).unwrap_or(0) % 10;
            self.bytes.push(digit_of(digit as u8))?;
            rest = rest.checked_rem(scale).unwrap_or(0);
            scale /= 10;
        }
        Ok(())
    }

    /// Adds a name: what it begins with, and its number.
    pub fn add_named(&mut self, start: &[u8], number: usize) -> Result<(), AllocError> {
        self.bytes.extend_from_slice(start)?;
        self.add_number(number)
    }

    /// Adds the digits of a number.
    pub fn add_word(&mut self, number: u64) -> Result<(), AllocError> {
        self.bytes.extend_from_slice(&hex_of(number))
    }

    /// Adds digits as they are.
    pub fn add_digits(&mut self, digits: &[u8]) -> Result<(), AllocError> {
        self.bytes.extend_from_slice(digits)
    }

    /// Adds digits in lines of 64.
    pub fn add_lines(&mut self, digits: &[u8]) -> Result<(), AllocError> {
        for line in digits.chunks(LINE_DIGITS) {
            self.bytes.extend_from_slice(line)?;
            self.add("\n\t")?;
        }
        Ok(())
    }

    /// Adds a field: its name and its words, the highest first, in lines.
    pub fn add_field(&mut self, name: &str, words: &[u64]) -> Result<(), AllocError> {
        self.add(" ")?;
        self.add(name)?;
        self.add(" (")?;
        let mut left = words.len();
        for word in words.iter().rev() {
            self.bytes.extend_from_slice(&hex_of(*word))?;
            left = left.saturating_sub(1);
            if left % LINE_WORDS == 0 && left > 0 {
                self.add("\n\t")?;
            }
        }
        self.add(")")
    }
}

/// The digit of a number below 16.
fn digit_of(number: u8) -> u8 {
    let letters = if number > 9 { 7 } else { 0 };
    number.wrapping_add(b'0').wrapping_add(letters)
}

/// The sixteen digits of a number, the highest first.
pub fn hex_of(number: u64) -> [u8; WORD_DIGITS] {
    let mut digits = [0; WORD_DIGITS];
    let mut rest = number.reverse_bits();
    for digit in digits.iter_mut() {
        let low = (rest & 15) as u8;
        *digit = digit_of(low.reverse_bits() >> 4);
        rest >>= 4;
    }
    digits
}
