//! The words of a value, in any case.
pub(crate) const TRUTHS: [(&[u8], bool); 2] = [(b"TRUE", true), (b"FALSE", false)];
