//! Names of devices, nets and ports.
ghost use Rattle.std.specs.Prelude.{◌≡◌};
ghost use Rattle.std.specs.List.{list_all};
ghost use Rattle.board_tables.specs.Names as spec;

/// Whether the text is a name: a letter, then letters, digits and `_`.
pub(crate) fn is_name(text: &str) -> bool
    ensures { result ≡ spec.is_name text.now }
{
    match text.as_bytes().split_first() {
        Some((first, rest)) => first.is_ascii_alphabetic() && all_continue(rest),
        None => false,
    }
}

fn all_continue(text: &[u8]) -> bool
    ensures { result ≡ list_all spec.continues text.now }
{
    text.iter()
        .all(|byte| byte.is_ascii_alphanumeric() || *byte == b'_')
}
