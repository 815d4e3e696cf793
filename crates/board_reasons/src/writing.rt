//! The lines that say why a bit of a scan failed.
ghost use Rattle.std.specs.Prelude.{◌≡◌, [], ◌∷◌, ◌++◌, codes, decimal, option_map, slice_get, unwrap_or};
ghost use Rattle.output_words.specs.Texts.{texts};
ghost use Rattle.byte_streams.specs.Writes.{WritesAll};
ghost use Rattle.board_model.specs.Chain.{members};
ghost use Rattle.board_chips.specs.WiredChips.{member_of};
ghost use Rattle.bsdl_device.specs.View.{port_bit};
ghost use Rattle.board_description.specs.Words as words;
ghost use Rattle.board_reasons.specs.Lines as spec;
ghost use Rattle.board_reasons.specs.Reasons.{reason_lines};

use crate::origins::{Captured, Holder, NetLevel, Reason, SelectedBy};
use crate::words::{cell_at, user_words};
use board_chain::{Chain, WiredChip};
use board_description::function_word;
use board_plan::is_left_out;
use bsdl_device::{Cell, Device, Function, PortBit};
use byte_streams::{Broken, Counted, Sink, put_all, put_pieces};
use itoa::Buffer;
use output_words::level_word;
use scan_vectors::Part;

/// Writes why a bit of a scan failed: what was wanted, and where the bit that came in its place had stood.
///
/// `Broken` comes exactly where the writer's first failure came in this call.
pub fn write_reason<W: Sink>(
    chain: &Chain,
    reason: Reason,
    out: &mut Counted<W>,
) -> Result<(), Broken>
    requires { out.old.failures ≡ 0 }
    ensures { WritesAll W.contents out.old out.new (reason_lines chain.now.nets (members chain.now.chips) reason)
        result }
{
    write_wanted(reason.wanted, out)?;
    write_from(chain, reason.holder, out)
}

/// Writes what was wanted, and what came: `wanted 0 got 1`.
///
/// `Broken` comes exactly where the writer's first failure came in this call.
pub fn write_wanted<W: Sink>(wanted: bool, out: &mut Counted<W>) -> Result<(), Broken>
    requires { out.old.failures ≡ 0 }
    ensures { WritesAll W.contents out.old out.new (spec.wanted_line wanted) result }
{
    if wanted {
        put_all(out, b"wanted 1 got 0\n")
    } else {
        put_all(out, b"wanted 0 got 1\n")
    }
}

/// Writes where a bit came from.
fn write_from<W: Sink>(chain: &Chain, holder: Holder, out: &mut Counted<W>) -> Result<(), Broken>
    requires { out.old.failures ≡ 0 }
    ensures { WritesAll W.contents out.old out.new (spec.from_line chain.now.nets (members chain.now.chips) holder)
        result }
{
    match holder {
        Holder::Tdi { part, bit } => write_tdi(part, bit, out),
        Holder::Bypass { device, .. } => write_of_device(chain, device, holder, out),
        Holder::Identification { device, .. } => write_of_device(chain, device, holder, out),
        Holder::User { device, .. } => write_of_device(chain, device, holder, out),
        Holder::Instruction { device, .. } => write_of_device(chain, device, holder, out),
        Holder::Cell { device, .. } => write_of_device(chain, device, holder, out),
    }
}

/// Writes the line of a bit that went in at TDI.
fn write_tdi<W: Sink>(part: Part, bit: usize, out: &mut Counted<W>) -> Result<(), Broken>
    requires { out.old.failures ≡ 0 }
    ensures { WritesAll W.contents out.old out.new (spec.tdi_line part bit) result }
{
    let mut digits = Buffer::new();
    put_pieces(
        out,
        &[
            b"from TDI ",
            part_word(part),
            b" bit ",
            digits.format(bit).as_bytes(),
            b"\n",
        ],
    )
}

/// A part of a vector, as the line of a failing bit calls it.
fn part_word(part: Part) -> &'static [u8]
    ensures { result.now ≡ spec.part_word part }
{
    match part {
        Part::Header => b"header",
        Part::Data => b"data",
        Part::Trailer => b"trailer",
    }
}

/// Writes the line of a bit that a device held.
fn write_of_device<W: Sink>(
    chain: &Chain,
    device: usize,
    holder: Holder,
    out: &mut Counted<W>,
) -> Result<(), Broken>
    requires { out.old.failures ≡ 0 }
    ensures { WritesAll W.contents out.old out.new
        (spec.of_device chain.now.nets (members chain.now.chips) holder device) result }
{
    if device < chain.devices() {
        write_of_chip(chain, chain.chip(device), holder, out)
    } else {
        put_all(out, b"")
    }
}

/// Writes the line of a bit that this device held.
fn write_of_chip<W: Sink>(
    chain: &Chain,
    chip: &WiredChip,
    holder: Holder,
    out: &mut Counted<W>,
) -> Result<(), Broken>
    requires { out.old.failures ≡ 0 }
    ensures { WritesAll W.contents out.old out.new (spec.of_member chain.now.nets holder (member_of chip.now))
        result }
{
    put_pieces(out, &[b"from ", chip.name().as_bytes(), b" "])?;
    write_holder(chain, chip.device(), holder, out)?;
    put_all(out, b"\n")
}

/// Writes what holds a bit of a device.
fn write_holder<W: Sink>(
    chain: &Chain,
    device: &Device,
    holder: Holder,
    out: &mut Counted<W>,
) -> Result<(), Broken>
    requires { out.old.failures ≡ 0 }
    ensures { WritesAll W.contents out.old out.new (spec.holder_words chain.now.nets device.now holder) result }
{
    match holder {
        Holder::Bypass { by, .. } => write_bypass(device, by, out),
        Holder::Identification { bit, .. } => write_bit(b"identification bit ", bit, out),
        Holder::User { register, bit, .. } => write_user(device, register, bit, out),
        Holder::Instruction { bit, .. } => write_bit(b"instruction bit ", bit, out),
        Holder::Cell { cell, captured, .. } => write_cell(chain, device, cell, captured, out),
        Holder::Tdi { .. } => put_all(out, b""),
    }
}

/// Writes a bit of a register of this name.
fn write_bit<W: Sink>(register: &[u8], bit: usize, out: &mut Counted<W>) -> Result<(), Broken>
    requires { out.old.failures ≡ 0 }
    ensures { WritesAll W.contents out.old out.new (register.now ++ decimal bit) result }
{
    let mut digits = Buffer::new();
    put_pieces(out, &[register, digits.format(bit).as_bytes()])
}

/// Writes a bypass register, and by which instruction it was selected.
fn write_bypass<W: Sink>(
    device: &Device,
    by: SelectedBy,
    out: &mut Counted<W>,
) -> Result<(), Broken>
    requires { out.old.failures ≡ 0 }
    ensures { WritesAll W.contents out.old out.new (codes "bypass" ++ spec.by_words device.now by) result }
{
    put_all(out, b"bypass")?;
    write_by(device, by, out)
}

/// Writes by which instruction a register was selected.
fn write_by<W: Sink>(device: &Device, by: SelectedBy, out: &mut Counted<W>) -> Result<(), Broken>
    requires { out.old.failures ≡ 0 }
    ensures { WritesAll W.contents out.old out.new (spec.by_words device.now by) result }
{
    match by {
        SelectedBy::AllOnes => put_all(out, b" by instruction BYPASS"),
        SelectedBy::Row(row) => write_by_row(device, row, out),
        SelectedBy::NoRow => put_all(out, b" by an opcode without an instruction"),
    }
}

/// Writes the instruction of a row, nothing where there is none of this number.
fn write_by_row<W: Sink>(device: &Device, row: usize, out: &mut Counted<W>) -> Result<(), Broken>
    requires { out.old.failures ≡ 0 }
    ensures { WritesAll W.contents out.old out.new (unwrap_or (option_map (spec.by_row device.now)
        (slice_get device.now.opcodes row)) []) result }
{
    match device.opcodes().get(row) {
        Some(found) => write_by_name(device, found.name(), out),
        None => put_all(out, b""),
    }
}

/// Writes an instruction, and whether it stands for BYPASS.
fn write_by_name<W: Sink>(device: &Device, name: &str, out: &mut Counted<W>) -> Result<(), Broken>
    requires { out.old.failures ≡ 0 }
    ensures { WritesAll W.contents out.old out.new (spec.by_name device.now name.now) result }
{
    put_pieces(
        out,
        &[
            b" by instruction ",
            name.as_bytes(),
            left_out_words(device, name),
        ],
    )
}

/// That an instruction stands for BYPASS, where it does.
fn left_out_words<'a>(device: &Device, name: &'a str) -> &'a [u8]
    ensures { result.now ≡ spec.left_out_words device.now name.now }
{
    if is_left_out(device, name) {
        b" which stands for BYPASS"
    } else {
        b""
    }
}

/// Writes a bit of a user register.
fn write_user<W: Sink>(
    device: &Device,
    register: usize,
    bit: usize,
    out: &mut Counted<W>,
) -> Result<(), Broken>
    requires { out.old.failures ≡ 0 }
    ensures { WritesAll W.contents out.old out.new (texts
        (codes "register of " ∷ words.user_words device.now register ∷ codes " bit " ∷ decimal bit ∷ [])) result }
{
    let mut digits = Buffer::new();
    put_pieces(
        out,
        &[
            b"register of ",
            user_words(device, register),
            b" bit ",
            digits.format(bit).as_bytes(),
        ],
    )
}

/// Writes a boundary cell, and what it captured.
fn write_cell<W: Sink>(
    chain: &Chain,
    device: &Device,
    cell: usize,
    captured: Captured,
    out: &mut Counted<W>,
) -> Result<(), Broken>
    requires { out.old.failures ≡ 0 }
    ensures { WritesAll W.contents out.old out.new (spec.cell_line chain.now.nets device.now cell captured) result }
{
    write_number(cell, out)?;
    write_found_cell(chain, device, cell_at(device, cell), captured, out)
}

/// Writes the number of a boundary cell.
fn write_number<W: Sink>(cell: usize, out: &mut Counted<W>) -> Result<(), Broken>
    requires { out.old.failures ≡ 0 }
    ensures { WritesAll W.contents out.old out.new (spec.cell_number cell) result }
{
    let mut digits = Buffer::new();
    put_pieces(out, &[b"boundary cell ", digits.format(cell).as_bytes()])
}

/// Writes what a cell is and captured, nothing where there is none of its number.
fn write_found_cell<W: Sink>(
    chain: &Chain,
    device: &Device,
    cell: Option<Cell>,
    captured: Captured,
    out: &mut Counted<W>,
) -> Result<(), Broken>
    requires { out.old.failures ≡ 0 }
    ensures { WritesAll W.contents out.old out.new
        (spec.found_cell chain.now.nets device.now captured cell) result }
{
    match cell {
        Some(found) => write_cell_words(chain, device, found, captured, out),
        None => put_all(out, b""),
    }
}

/// Writes a cell: what it does, its port, and what it captured.
fn write_cell_words<W: Sink>(
    chain: &Chain,
    device: &Device,
    cell: Cell,
    captured: Captured,
    out: &mut Counted<W>,
) -> Result<(), Broken>
    requires { out.old.failures ≡ 0 }
    ensures { WritesAll W.contents out.old out.new (spec.cell_words chain.now.nets device.now captured cell) result }
{
    write_function(cell.function, out)?;
    write_at_port(device, cell.port, out)?;
    write_captured(chain, captured, out)
}

/// Writes what a cell does.
fn write_function<W: Sink>(function: Function, out: &mut Counted<W>) -> Result<(), Broken>
    requires { out.old.failures ≡ 0 }
    ensures { WritesAll W.contents out.old out.new (texts (codes " " ∷ words.function_word function ∷ [])) result }
{
    put_pieces(out, &[b" ", function_word(function)])
}

/// Writes the port of a cell, where it has one.
fn write_at_port<W: Sink>(
    device: &Device,
    port: Option<usize>,
    out: &mut Counted<W>,
) -> Result<(), Broken>
    requires { out.old.failures ≡ 0 }
    ensures { WritesAll W.contents out.old out.new (spec.at_port device.now port) result }
{
    match port {
        Some(port) => write_named_port(device, port, out),
        None => put_all(out, b""),
    }
}

/// Writes a port bit behind the word for it.
fn write_named_port<W: Sink>(
    device: &Device,
    port: usize,
    out: &mut Counted<W>,
) -> Result<(), Broken>
    requires { out.old.failures ≡ 0 }
    ensures { WritesAll W.contents out.old out.new (codes " port " ++ words.port_of device.now port) result }
{
    put_all(out, b" port ")?;
    write_port(device, port, out)
}

/// Writes what a cell captured.
fn write_captured<W: Sink>(
    chain: &Chain,
    captured: Captured,
    out: &mut Counted<W>,
) -> Result<(), Broken>
    requires { out.old.failures ≡ 0 }
    ensures { WritesAll W.contents out.old out.new (spec.captured_words chain.now.nets captured) result }
{
    match captured {
        Captured::Core => put_all(out, b" captured core"),
        Captured::Update => put_all(out, b" captured update"),
        Captured::Sight(net) => write_net(chain, net, out),
    }
}

/// Writes a port bit of a device.
fn write_port<W: Sink>(device: &Device, port: usize, out: &mut Counted<W>) -> Result<(), Broken>
    requires { out.old.failures ≡ 0 }
    ensures { WritesAll W.contents out.old out.new (words.port_of device.now port) result }
{
    if port < device.port_count() {
        write_port_bit(device.port(port), out)
    } else {
        put_all(out, b"")
    }
}

/// Writes a port bit: its name, and its index where the port has several.
fn write_port_bit<W: Sink>(port: PortBit<'_>, out: &mut Counted<W>) -> Result<(), Broken>
    requires { out.old.failures ≡ 0 }
    ensures { WritesAll W.contents out.old out.new (words.port_words (port_bit port.entry)) result }
{
    match port.index {
        None => put_all(out, port.name.as_bytes()),
        Some(index) => {
            let mut digits = Buffer::new();
            put_pieces(
                out,
                &[
                    port.name.as_bytes(),
                    b"(",
                    digits.format(index).as_bytes(),
                    b")",
                ],
            )
        }
    }
}

/// Writes the net of a port with its level.
fn write_net<W: Sink>(
    chain: &Chain,
    net: Option<NetLevel>,
    out: &mut Counted<W>,
) -> Result<(), Broken>
    requires { out.old.failures ≡ 0 }
    ensures { WritesAll W.contents out.old out.new (spec.net_words chain.now.nets net) result }
{
    match net {
        None => put_all(out, b" no net"),
        Some(shown) => write_level(chain, shown, out),
    }
}

/// Writes a net with its level.
fn write_level<W: Sink>(chain: &Chain, shown: NetLevel, out: &mut Counted<W>) -> Result<(), Broken>
    requires { out.old.failures ≡ 0 }
    ensures { WritesAll W.contents out.old out.new (spec.level_words chain.now.nets shown) result }
{
    write_net_name(net_name(chain, shown.net), out)?;
    put_all(out, level_word(shown.level))
}

/// Writes the name of a net.
fn write_net_name<W: Sink>(name: &str, out: &mut Counted<W>) -> Result<(), Broken>
    requires { out.old.failures ≡ 0 }
    ensures { WritesAll W.contents out.old out.new (texts (codes " net " ∷ name.now ∷ codes " level " ∷ [])) result }
{
    put_pieces(out, &[b" net ", name.as_bytes(), b" level "])
}

/// The name of a net, nothing where there is none of this number.
fn net_name(chain: &Chain, net: usize) -> &str
    ensures { result.now ≡ words.net_name chain.now.nets net }
{
    if net < chain.nets() {
        chain.net_name(net)
    } else {
        ""
    }
}
