//! The lines of a device's cells.
ghost use Rattle.std.specs.Prelude.{◌≡◌, ◌++◌, OnOk, ℕ, length, map};
ghost use Rattle.bsdl_device.specs.View.{port_bit};
ghost use Rattle.board_plan.specs.CellNets.{HasNets};
ghost use Rattle.board_plan.specs.View.{net as planned_net};
ghost use Rattle.board_description.specs.Described as spec;
ghost use Rattle.board_description.specs.Words as words;
ghost use Rattle.board_description.specs.Words.{port_words};

use crate::words::{disabled_word, function_word};
use board_plan::PlannedNet;
use bsdl_device::{Cell, Control3, Device, PortBit};
use itoa::Buffer;
use output_words::{digit_of, put};
use std::alloc::AllocError;

/// Puts a line for each cell of a device behind a text, given of each of its port bits the first net that it is on.
#[tactic(auto, using(crate::proofs::TextLaws::cells_next))]
pub(crate) fn put_cells(
    text: &mut Vec<u8>,
    nets: &[PlannedNet],
    table: &[Option<usize>],
    name: &str,
    device: &Device,
) -> Result<(), AllocError>
    requires long { length table.now ≡ length device.now.ports }
    ensures { (place : ℕ) → HasNets place (map planned_net nets.now) table.now → OnOk result (text.new.items
        ≡ text.old.items ++ spec.cell_lines (map planned_net nets.now) place name.now device.now 0 device.now.cells) }
{
    for (k, cell) in device.cells().iter().enumerate() {
        put_cell(text, nets, table, name, device, k, *cell)?;
    }
    Ok(())
}

/// Puts the line of a cell behind a text.
fn put_cell(
    text: &mut Vec<u8>,
    nets: &[PlannedNet],
    table: &[Option<usize>],
    name: &str,
    device: &Device,
    k: usize,
    cell: Cell,
) -> Result<(), AllocError>
    requires long { length table.now ≡ length device.now.ports }
    ensures { (place : ℕ) → HasNets place (map planned_net nets.now) table.now → OnOk result (text.new.items
        ≡ text.old.items ++ spec.cell_line (map planned_net nets.now) place name.now device.now k cell) }
{
    let mut digits = Buffer::new();
    put(
        text,
        &[
            name.as_bytes(),
            b" cell ",
            digits.format(k).as_bytes(),
            b" ",
        ],
    )?;
    put(text, &[function_word(cell.function)])?;
    put_cell_port(text, nets, table, device, cell.port)?;
    put_control(text, cell.control)?;
    put(text, &[b"\n"])
}

/// Puts the port of a cell and its net behind a text, nothing where it has none.
fn put_cell_port(
    text: &mut Vec<u8>,
    nets: &[PlannedNet],
    table: &[Option<usize>],
    device: &Device,
    port: Option<usize>,
) -> Result<(), AllocError>
    requires long { length table.now ≡ length device.now.ports }
    ensures { (place : ℕ) → HasNets place (map planned_net nets.now) table.now → OnOk result (text.new.items
        ≡ text.old.items ++ spec.port_part (map planned_net nets.now) place device.now port) }
{
    match port {
        Some(port) if port < table.len() => {
            put(text, &[b" port "])?;
            put_port(text, device.port(port))?;
            put_net(text, nets, table[port])
        }
        _ => Ok(()),
    }
}

/// Puts a port bit behind a text: its name, and its index where the port has several.
pub(crate) fn put_port(text: &mut Vec<u8>, port: PortBit<'_>) -> Result<(), AllocError>
    ensures { OnOk result (text.new.items ≡ text.old.items ++ port_words (port_bit port.entry)) }
{
    match port.index {
        None => put(text, &[port.name.as_bytes()]),
        Some(index) => {
            let mut digits = Buffer::new();
            put(
                text,
                &[
                    port.name.as_bytes(),
                    b"(",
                    digits.format(index).as_bytes(),
                    b")",
                ],
            )
        }
    }
}

/// Puts the net of a port behind a text.
pub(crate) fn put_net(
    text: &mut Vec<u8>,
    nets: &[PlannedNet],
    net: Option<usize>,
) -> Result<(), AllocError>
    ensures { OnOk result (text.new.items ≡ text.old.items ++ spec.on_net (map planned_net nets.now) net) }
{
    match net {
        None => put(text, &[b" no net"]),
        Some(net) => put(text, &[b" net ", net_name(nets, net).as_bytes()]),
    }
}

/// The name of a net, nothing where there is none of this number.
pub fn net_name(nets: &[PlannedNet], net: usize) -> &str
    ensures { result.now ≡ words.net_name (map planned_net nets.now) net }
{
    match nets.get(net) {
        Some(net) => net.name.as_str(),
        None => "",
    }
}

/// Puts what disables a cell behind a text, nothing where nothing does.
fn put_control(text: &mut Vec<u8>, control: Option<Control3>) -> Result<(), AllocError>
    ensures { OnOk result (text.new.items ≡ text.old.items ++ spec.control_words control) }
{
    let Some(control) = control else {
        return Ok(());
    };
    let mut digits = Buffer::new();
    put(
        text,
        &[
            b" control ",
            digits.format(control.cell).as_bytes(),
            b" disables ",
            &[digit_of(control.disabling)],
            b" leaves ",
            disabled_word(control.leaves),
        ],
    )
}
