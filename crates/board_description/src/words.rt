//! The words of cells and nets.
ghost use Rattle.std.specs.Prelude.{◌≡◌};
ghost use Rattle.board_description.specs.Described as spec;
ghost use Rattle.board_description.specs.Words as words;

use bsdl_device::{Disabled, Function, PortMode};
use pin_nets::Pull;

/// The function of a cell, as descriptions name it (Annex B.8.14).
pub fn function_word(function: Function) -> &'static [u8]
    ensures { result.now ≡ words.function_word function }
{
    match function {
        Function::Input => b"input",
        Function::Clock => b"clock",
        Function::ObserveOnly => b"observe_only",
        Function::Bidir => b"bidir",
        Function::Output2 => b"output2",
        Function::Output3 => b"output3",
        Function::Control => b"control",
        Function::ControlR => b"controlr",
        Function::Internal => b"internal",
    }
}

/// What is driven while a driver is disabled, as descriptions name it (Annex B.8.14).
pub(crate) fn disabled_word(disabled: Disabled) -> &'static [u8]
    ensures { result.now ≡ spec.disabled_word disabled }
{
    match disabled {
        Disabled::Z => b"Z",
        Disabled::Keeper => b"KEEPER",
        Disabled::Weak0 => b"WEAK0",
        Disabled::Weak1 => b"WEAK1",
        Disabled::Pull0 => b"PULL0",
        Disabled::Pull1 => b"PULL1",
    }
}

/// The pull of a net.
pub(crate) fn pull_word(pull: Pull) -> &'static [u8]
    ensures { result.now ≡ spec.pull_word pull }
{
    match pull {
        Pull::Free => b"none",
        Pull::Up => b"up",
        Pull::Down => b"down",
    }
}

/// The mode of a port, as descriptions write it (Annex B.8.3).
pub(crate) fn mode_word(mode: PortMode) -> &'static [u8]
    ensures { result.now ≡ spec.mode_word mode }
{
    match mode {
        PortMode::In => b"in",
        PortMode::Out => b"out",
        PortMode::InOut => b"inout",
        PortMode::Buffer => b"buffer",
        PortMode::Linkage => b"linkage",
    }
}
