//! The targets of strings, as the board file spells them.
ghost use Rattle.std.specs.Prelude.{◌≡◌, ◌<◌, ◌++◌, ◌∷◌, Some, length, slice_get, string_bytes, IfOk};
ghost use Rattle.std.specs.List.{flat_map};
ghost use Rattle.toml.specs.View.{items_view};
ghost use Rattle.board_tables.specs.Fields.{tables_in, texts_in};
ghost use Rattle.board_file.specs.Wiring.{targets_of};
ghost use Rattle.board_file.specs.View.{CountsOn};

use board_tables::{items_at, name_at, target_text};
use std::alloc::{AllocError, Global};
use toml::Value;

/// The target of the string at a place, by the tables of devices and then strings, as `U1.Q`. Refuses for want of
/// memory alone.
///
/// Asks that there are so many strings.
pub(crate) fn target_at(
    alloc: Global,
    devices: &[Value],
    place: usize,
) -> Result<String, AllocError>
    requires { place < length (flat_map targets_of (tables_in (items_view devices.now))) }
    ensures { IfOk result (λ target. slice_get (flat_map targets_of (tables_in (items_view devices.now))) place
        ≡ Some (string_bytes target)) }
{
    let mut left = place;
    for device in devices {
        if let Some(table) = device.as_table() {
            match text_at_place(items_at(table, "follow"), left) {
                Ok(text) => return pin_text(alloc, name_at(table), target_text(text)),
                Err(rest) => left = rest,
            }
        }
    }
    unreachable!()
}

/// The text at a place among these values, or how many places are left behind their last.
fn text_at_place(texts: &[Value], place: usize) -> Result<&str, usize>
    ensures { CountsOn result (texts_in (items_view texts.now)) place }
{
    let mut left = place;
    for value in texts {
        if let Some(text) = value.as_str() {
            if left == 0 {
                return Ok(text);
            }
            left -= 1;
        }
    }
    Err(left)
}

/// A pin of a device.
fn pin_text(alloc: Global, device: &str, port: &str) -> Result<String, AllocError>
    ensures { IfOk result (λ s. string_bytes s ≡ device.now ++ 46 ∷ port.now) }
{
    let mut text = String::from_str(alloc, device)?;
    text.push_str(".")?;
    text.push_str(port)?;
    Ok(text)
}
