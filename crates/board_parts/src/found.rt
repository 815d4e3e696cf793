//! The pins of a net, each found once.
ghost use Rattle.std.specs.Prelude.{◌≡◌, filter_map, IfOk};
ghost use Rattle.toml.specs.View.{items_view};
ghost use Rattle.board_tables.specs.Fields.{texts_in};
ghost use Rattle.board_tables.specs.WordView.{texts_of};
ghost use Rattle.board_parts.specs.Pins as spec;
ghost use Rattle.board_parts.specs.PinView.{Knows};

use crate::pins::find_pin;
use board_plan::SharedDevice;
use board_tables::Places;
use pin_nets::Pin;
use std::alloc::{AllocError, AllocFailed, Global};
use toml::Value;

/// Why the pins of a net are not found.
#[derive(Debug, Drop, Clone, Copy)]
pub enum Unfound<'t> {
    /// This text names no pin.
    Unknown(&'t str),
    /// A growth was refused.
    Memory,
}

impl<'t> From<AllocError> for Unfound<'t> {
    ghost use Rattle.board_parts.specs.declared.found.Unfound.TheVariants.{Memory};

    ghost from_gives = { λ _ e. e ≡ Memory };

    fn from(_refused: AllocError) -> Unfound<'t> {
        Unfound::Memory
    }
}

impl<'t, T: Drop> From<AllocFailed<T>> for Unfound<'t> {
    ghost use Rattle.board_parts.specs.declared.found.Unfound.TheVariants.{Memory};

    ghost from_gives = { λ _ e. e ≡ Memory };

    fn from(_refused: AllocFailed<T>) -> Unfound<'t> {
        Unfound::Memory
    }
}

/// The pins that the texts of these values name, in their order, given the names of all devices, and the devices.
/// Refused at the first text that names none, and where memory runs out.
pub(crate) fn find_pins<'t>(
    alloc: Global,
    names: &Places<&str>,
    devices: &[SharedDevice],
    pins: &'t [Value],
) -> Result<Vec<Pin>, Unfound<'t>>
    ensures known { Knows result
        (spec.unknown_pin (texts_of names.now) devices.now (texts_in (items_view pins.now))) }
    ensures pins { IfOk result (λ v. v.items
        ≡ filter_map (spec.pin_at (texts_of names.now) devices.now) (texts_in (items_view pins.now))) }
{
    let mut found = Vec::with_capacity(alloc, pins.len())?;
    for pin in pins {
        if let Some(text) = pin.as_str() {
            match find_pin(alloc, names, devices, text)? {
                Some(pin) => found.push(pin)?,
                None => return Err(Unfound::Unknown(text)),
            }
        }
    }
    Ok(found)
}
