//! Pins that stand twice.
ghost use Rattle.std.specs.Prelude.{◌≡◌, option_map, ◌++◌, ◌∷◌, [], not, true, IfOk, None};
ghost use Rattle.std.specs.List.{list_any, filter_map};
ghost use Rattle.toml.specs.View.{items_view};
ghost use Rattle.board_tables.specs.Fields.{tables_in, texts_in};
ghost use Rattle.board_tables.specs.WordView.{texts_of};
ghost use Rattle.board_parts.specs.Pins as spec;

use crate::pins::find_pin;
use board_plan::SharedDevice;
use board_tables::{Places, items_at};
use pin_nets::Pin;
use std::alloc::{AllocError, Global};
use toml::Value;

/// The first text among the pins of all nets whose pin stands before it. Refuses for want of memory alone.
pub fn first_twice<'t>(
    alloc: Global,
    names: &Places<&str>,
    devices: &[SharedDevice],
    nets: &'t [Value],
) -> Result<Option<&'t str>, AllocError>
    ensures { IfOk result (λ r. option_map (λ s. s.now) r
        ≡ spec.twice_in_nets (texts_of names.now) devices.now [] (tables_in (items_view nets.now))) }
{
    let mut used = Places::new(alloc);
    for net in nets {
        if let Some(table) = net.as_table() {
            if let Some(text) = add_pins(
                alloc,
                &mut used,
                names,
                devices,
                items_at(table, "pins"),
            )? {
                return Ok(Some(text));
            }
        }
    }
    Ok(None)
}

/// Adds the pins of a net, up to the first that is there.
fn add_pins<'t>(
    alloc: Global,
    used: &mut Places<Pin>,
    names: &Places<&str>,
    devices: &[SharedDevice],
    pins: &'t [Value],
) -> Result<Option<&'t str>, AllocError>
    ensures judged { IfOk result
        (λ r. option_map (λ s. s.now) r
        ≡ spec.twice (texts_of names.now) devices.now used.old (texts_in (items_view pins.now))) }
    ensures added { IfOk result
        (λ r. r ≡ None → used.new
        ≡ used.old ++ filter_map (spec.pin_at (texts_of names.now) devices.now) (texts_in (items_view pins.now))) }
{
    for pin in pins {
        if let Some(text) = pin.as_str() {
            if let Some(pin) = find_pin(alloc, names, devices, text)? {
                if !add_pin(used, pin)? {
                    return Ok(Some(text));
                }
            }
        }
    }
    Ok(None)
}

/// Adds a pin. Answers whether it was not there yet.
fn add_pin(used: &mut Places<Pin>, pin: Pin) -> Result<bool, AllocError>
    ensures new { IfOk result (λ r. r ≡ not (list_any (spec.same_pin pin) used.old)) }
    ensures added { IfOk result (λ r. r ≡ true → used.new ≡ used.old ++ pin ∷ []) }
{
    if has_pin(used, pin) {
        return Ok(false);
    }
    used.push(pin)?;
    Ok(true)
}

fn has_pin(used: &Places<Pin>, pin: Pin) -> bool
    ensures { result ≡ list_any (spec.same_pin pin) used.now }
{
    used.place(pin).is_some()
}
