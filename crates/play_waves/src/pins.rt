//! The variables of what pins drive, those of a net in a scope of its name.

ghost use Rattle.std.specs.Prelude.{◌≡◌, ◌<◌, ◌≤◌, ◌+◌, ◌++◌, ◌^◌, Some, drop, length, slice_get, take};
ghost use Rattle.byte_streams.specs.Writes.{WritesAll};
ghost use Rattle.jt_limits.specs.Limits.{limits};
ghost use Rattle.bsdl_device.specs.View.{port_bit};
ghost use Rattle.pin_nets.specs.Wired.{Net};
ghost use Rattle.board_plan.specs.Planned.{all_pins};
ghost use Rattle.board_description.specs.Words as words;
ghost use Rattle.wave_files.specs.Heading.{drive_variable, drive_variables, fronted, net_scope, net_scopes};
ghost use Rattle.wave_files.specs.Heading.{pin_name};
ghost use Rattle.wave_files.specs.Values.{by_numbers};

use crate::variables::write_scope;
use board_chain::{Chain, WiredChip};
use bsdl_device::{Device, PortBit};
use byte_streams::{Broken, Counted, Sink, put_all, put_pieces};
use itoa::Buffer;
use pin_nets::Pin;
use wave_files::{first_of_drives, write_code};

/// Writes the variables of what pins drive, where that is drawn.
pub(crate) fn write_drive_variables<W: Sink>(
    drives: bool,
    chain: &Chain,
    out: &mut Counted<W>,
) -> Result<(), Broken>
    requires none_lost { out.old.failures ≡ 0 }
    requires few { length chain.now.chips ≤ limits.devices }
    requires few_nets { length chain.now.nets ≤ limits.nets }
    ensures { WritesAll W.contents out.old out.new (drive_variables drives chain.now.chips chain.now.nets) result }
{
    if !drives {
        return put_all(out, b"");
    }
    write_net_scopes(first_of_drives(chain), chain, out)
}

/// Writes these of all nets, from a number on.
fn write_net_scopes<W: Sink>(
    first: usize,
    chain: &Chain,
    out: &mut Counted<W>,
) -> Result<(), Broken>
    requires none_lost { out.old.failures ≡ 0 }
    requires early { first ≤ 300000 }
    ensures { WritesAll W.contents out.old out.new (net_scopes chain.now.chips first chain.now.nets) result }
{
    // For the proof alone: how many pins there may be.
    let _ = chain.pin_count();
    let mut pin = 0;
    for k in 0..chain.nets() {
        let count = chain.net_size(k);
        write_net_scope(first, k, pin, chain, out)?;
        pin += count;
    }
    Ok(())
}

/// Writes these of net `k`, whose pins stand among those of the nets from a place on.
fn write_net_scope<W: Sink>(
    first: usize,
    k: usize,
    pin: usize,
    chain: &Chain,
    out: &mut Counted<W>,
) -> Result<(), Broken>
    requires none_lost { out.old.failures ≡ 0 }
    requires early { first ≤ 300000 }
    requires few { length (all_pins chain.now.nets) < 2 ^ 63 }
    requires inside { k < length chain.now.nets }
    requires place { pin ≡ length (all_pins (take k chain.now.nets)) }
    ensures { (net : Net) → slice_get chain.now.nets k ≡ Some net
        → WritesAll W.contents out.old out.new (net_scope chain.now.chips (first + pin) net) result }
{
    let net = chain.net_name(k);
    let count = chain.net_size(k);
    write_scope(net, out)?;
    write_pins(first, net, pin, count, chain, out)?;
    put_all(out, b"$upscope $end\n")
}

/// Writes these of so many pins of a net of this name, which stand among those of the nets from a place on.
fn write_pins<W: Sink>(
    first: usize,
    net: &str,
    pin: usize,
    count: usize,
    chain: &Chain,
    out: &mut Counted<W>,
) -> Result<(), Broken>
    requires none_lost { out.old.failures ≡ 0 }
    requires early { first ≤ 300000 }
    requires few { length (all_pins chain.now.nets) < 2 ^ 63 }
    requires inside { pin + count ≤ length (all_pins chain.now.nets) }
    ensures { WritesAll W.contents out.old out.new
        (by_numbers (drive_variable chain.now.chips net.now) 1 (first + pin)
        (take count (drop pin (all_pins chain.now.nets)))) result }
{
    for i in 0..count {
        write_drive_variable(first + pin + i, net, chain.pin(pin + i), chain, out)?;
    }
    Ok(())
}

/// Writes the variable of a pin of a net of this name.
fn write_drive_variable<W: Sink>(
    number: usize,
    net: &str,
    pin: Pin,
    chain: &Chain,
    out: &mut Counted<W>,
) -> Result<(), Broken>
    requires { out.old.failures ≡ 0 }
    ensures { WritesAll W.contents out.old out.new (drive_variable chain.now.chips net.now number pin) result }
{
    put_all(out, b"$var wire 1 ")?;
    write_code(number, b' ', out)?;
    write_leaf(net, pin, chain, out)?;
    put_all(out, b" $end\n")
}

/// Writes the name of that variable.
fn write_leaf<W: Sink>(
    net: &str,
    pin: Pin,
    chain: &Chain,
    out: &mut Counted<W>,
) -> Result<(), Broken>
    requires { out.old.failures ≡ 0 }
    ensures { WritesAll W.contents out.old out.new (fronted net.now ++ pin_name chain.now.chips pin) result }
{
    write_front(net, out)?;
    write_pin(pin, chain, out)
}

/// Writes a name, and what parts it from what follows.
fn write_front<W: Sink>(name: &str, out: &mut Counted<W>) -> Result<(), Broken>
    requires { out.old.failures ≡ 0 }
    ensures { WritesAll W.contents out.old out.new (fronted name.now) result }
{
    put_pieces(out, &[name.as_bytes(), b"-"])
}

/// Writes a pin by its device and its port, nothing where it is of no device of the chain.
fn write_pin<W: Sink>(pin: Pin, chain: &Chain, out: &mut Counted<W>) -> Result<(), Broken>
    requires { out.old.failures ≡ 0 }
    ensures { WritesAll W.contents out.old out.new (pin_name chain.now.chips pin) result }
{
    if pin.device < chain.devices() {
        write_pin_of(chain.chip(pin.device), pin.port, out)
    } else {
        put_all(out, b"")
    }
}

/// Writes a pin of a device.
fn write_pin_of<W: Sink>(chip: &WiredChip, port: usize, out: &mut Counted<W>) -> Result<(), Broken>
    requires { out.old.failures ≡ 0 }
    ensures { WritesAll W.contents out.old out.new (fronted chip.now.name ++ words.port_of chip.now.chip.device port)
        result }
{
    write_pin_named(chip.name(), chip.device(), port, out)
}

/// Writes a pin of this device, which has this name on the board.
fn write_pin_named<W: Sink>(
    name: &str,
    device: &Device,
    port: usize,
    out: &mut Counted<W>,
) -> Result<(), Broken>
    requires { out.old.failures ≡ 0 }
    ensures { WritesAll W.contents out.old out.new (fronted name.now ++ words.port_of device.now port) result }
{
    write_front(name, out)?;
    write_port(device, port, out)
}

/// Writes a port bit of a device.
fn write_port<W: Sink>(device: &Device, port: usize, out: &mut Counted<W>) -> Result<(), Broken>
    requires { out.old.failures ≡ 0 }
    ensures { WritesAll W.contents out.old out.new (words.port_of device.now port) result }
{
    if port < device.port_count() {
        write_port_bit(device.port(port), out)
    } else {
        put_all(out, b"")
    }
}

/// Writes a port bit: its name, and its index where the port has several.
fn write_port_bit<W: Sink>(port: PortBit<'_>, out: &mut Counted<W>) -> Result<(), Broken>
    requires { out.old.failures ≡ 0 }
    ensures { WritesAll W.contents out.old out.new (words.port_words (port_bit port.entry)) result }
{
    match port.index {
        None => put_all(out, port.name.as_bytes()),
        Some(index) => {
            let mut digits = Buffer::new();
            put_pieces(
                out,
                &[
                    port.name.as_bytes(),
                    b"(",
                    digits.format(index).as_bytes(),
                    b")",
                ],
            )
        }
    }
}
