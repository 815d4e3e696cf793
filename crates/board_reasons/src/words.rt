//! What a description says of registers and cells.
ghost use Rattle.std.specs.Prelude.{◌≡◌, slice_get};
ghost use Rattle.board_description.specs.Words as words;

use bsdl_device::{Access, Cell, Device, Place};

/// The first instruction that selects a user register, nothing where none does.
pub(crate) fn user_words(device: &Device, register: usize) -> &[u8]
    ensures { result.now ≡ words.user_words device.now register }
{
    match device
        .accesses()
        .iter()
        .find(|access| is_user(access, register))
    {
        Some(access) => access.instruction().as_bytes(),
        None => b"",
    }
}

/// Whether an instruction selects this user register.
fn is_user(access: &Access, register: usize) -> bool
    ensures { result ≡ words.is_user register access.now }
{
    match access.place() {
        Place::AtUser(number) => number == register,
        _ => false,
    }
}

/// The boundary cell of a number, if there is one.
pub(crate) fn cell_at(device: &Device, cell: usize) -> Option<Cell>
    ensures { result ≡ slice_get device.now.cells cell }
{
    device.cells().get(cell).copied()
}
