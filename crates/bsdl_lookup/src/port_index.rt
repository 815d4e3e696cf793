//! Port bits.
ghost use Rattle.std.specs.Prelude.{◌≡◌};
ghost use Rattle.bsdl_text.specs.Numbers.{significant};

use bsdl_text::Digits;

/// A port bit by the number of its port and its index, 0 where it has none. The index has no zeros before it.
#[derive(Debug, Clone, Copy)]
pub struct PortIndex<'a> {
    pub port: usize,
    pub index: Digits<'a>,
    pub ghost starts: { significant index.digits.now ≡ index.digits.now },
}
