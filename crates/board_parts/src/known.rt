//! The nets that a board file's tables say, where each text of their pins names one.
ghost use Rattle.std.specs.Prelude.{◌≡◌, codes, map, IfOk};
ghost use Rattle.toml.specs.View.{table_view, items_view};
ghost use Rattle.board_tables.specs.Fields.{tables_in, texts_at};
ghost use Rattle.board_tables.specs.WordView.{texts_of};
ghost use Rattle.board_parts.specs.Pins.{unknown_pin, unknown_in_nets};
ghost use Rattle.board_parts.specs.PinView.{Knows};
ghost use Rattle.board_parts.specs.Parts as spec;
ghost use Rattle.board_plan.specs.View as planned;

use crate::found::{Unfound, find_pins};
use board_plan::{PlannedNet, SharedDevice, pull_of};
use board_tables::{Places, items_at, name_at, text_at};
use pin_nets::Rule;
use std::alloc::Global;
use toml::{Table, Value};

/// The nets of these tables, given the names of all devices, and the devices: of each the pins that its texts name,
/// each text looked up once. Refused at the first text that names none, and where memory runs out.
pub fn plan_known_nets<'t>(
    alloc: Global,
    names: &Places<&str>,
    devices: &[SharedDevice],
    nets: &'t [Value],
) -> Result<Vec<PlannedNet>, Unfound<'t>>
    ensures known { Knows result
        (unknown_in_nets (texts_of names.now) devices.now (tables_in (items_view nets.now))) }
    ensures nets { IfOk result (λ v. map planned.net v.items
        ≡ map (spec.net_of (texts_of names.now) devices.now) (tables_in (items_view nets.now))) }
{
    let mut planned = Vec::with_capacity(alloc, nets.len())?;
    for net in nets {
        if let Some(table) = net.as_table() {
            planned.push(plan_known_net(alloc, names, devices, table)?)?;
        }
    }
    Ok(planned)
}

fn plan_known_net<'t>(
    alloc: Global,
    names: &Places<&str>,
    devices: &[SharedDevice],
    table: &'t Table,
) -> Result<PlannedNet, Unfound<'t>>
    ensures known { Knows result
        (unknown_pin (texts_of names.now) devices.now (texts_at (codes "pins") (table_view table.now))) }
    ensures net { IfOk result (λ n. planned.net n
        ≡ spec.net_of (texts_of names.now) devices.now (table_view table.now)) }
{
    let pins = find_pins(alloc, names, devices, items_at(table, "pins"))?;
    Ok(PlannedNet {
        name: String::from_str(alloc, name_at(table))?,
        pull: pull_of(text_at(table, "pull")),
        rule: Rule::Counted,
        pins,
    })
}
