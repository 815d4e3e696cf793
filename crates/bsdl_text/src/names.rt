//! Names, which are ASCII.
ghost use Rattle.std.specs.Prelude.{◌≡◌, IfOk, string_bytes};
ghost use Rattle.bsdl_text.specs.Ascii.{IsAscii};
ghost use Rattle.bsdl_text.specs.Words.{upper};

use std::alloc::{AllocError, Global};

/// A word of a text: a letter, and then letters, digits and `_`.
#[derive(Debug, Clone, Copy, PartialEq, Eq)]
pub struct Word<'a> {
    pub text: &'a [u8],
    /// The place of its first byte, counted in bytes from 0.
    pub start: usize,
    pub ghost ascii: { IsAscii text.now },
}

impl Word<'_> {
    /// The word in upper case. Refuses for want of memory alone.
    pub fn upper_name(self, alloc: Global) -> Result<String, AllocError>
        ensures { IfOk result (λ name. string_bytes name ≡ upper self.entry.text.now) }
    {
        let mut name = self.spelling(alloc)?;
        name.make_ascii_uppercase();
        Ok(name)
    }

    /// The word as it is spelt. Refuses for want of memory alone.
    pub fn spelling(self, alloc: Global) -> Result<String, AllocError>
        ensures { IfOk result (λ name. string_bytes name ≡ self.entry.text.now) }
    {
        String::from_str(alloc, str::from_utf8(self.text).unwrap())
    }
}
