//! Which port bits the pins of the nets are.
ghost use Rattle.std.specs.Prelude.{◌≡◌, ◌<◌, true, length, option_map, IfOk, IfSome};
ghost use Rattle.board_tables.specs.PinTexts as texts;
ghost use Rattle.board_tables.specs.WordView.{texts_of};
ghost use Rattle.board_parts.specs.Pins as spec;

use board_plan::SharedDevice;
use board_tables::{PinText, Places, pin_of};
use bsdl_device::Device;
use pin_nets::Pin;
use std::alloc::{AllocError, Global};

/// The pin that a text names, given the names of all devices, and the devices. `None` where the text has another form,
/// or names no device, no port bit, or a port of the TAP. Refuses for want of memory alone.
#[tactic(auto, unfolding(crate::specs::Pins::pin_at))]
pub(crate) fn find_pin(
    alloc: Global,
    names: &Places<&str>,
    devices: &[SharedDevice],
    text: &str,
) -> Result<Option<Pin>, AllocError>
    ensures { IfOk result (λ pin. pin ≡ spec.pin_at (texts_of names.now) devices.now text.now) }
{
    match pin_of(text) {
        Some(pin) => match names.place_of(pin.device) {
            Some(place) => bit_at(alloc, devices, &pin, place),
            None => Ok(None),
        },
        None => Ok(None),
    }
}

/// The port bit of the device at a place on the board.
fn bit_at(
    alloc: Global,
    devices: &[SharedDevice],
    pin: &PinText<'_>,
    place: usize,
) -> Result<Option<Pin>, AllocError>
    requires { IfSome pin.now.index (λ d. texts.is_number d.now ≡ true) }
    ensures { IfOk result (λ found. found ≡ spec.bit_at devices.now
        (record {
          device = pin.now.device.now;
          port = pin.now.port.now;
          index = option_map (λ d. d.now) pin.now.index;
        }) place) }
{
    let Some(device) = devices.get(place) else {
        return Ok(None);
    };
    match port_bit(alloc, device.get(), pin.port, pin.index)? {
        Some(port) => Ok(Some(Pin {
            device: place,
            port,
        })),
        None => Ok(None),
    }
}

/// The number of the port bit of this name, in any case, and index, unless it is the TAP's. Refuses for want of memory
/// alone.
pub fn port_bit(
    alloc: Global,
    device: &Device,
    port: &str,
    index: Option<&str>,
) -> Result<Option<usize>, AllocError>
    requires { IfSome index (λ d. texts.is_number d.now ≡ true) }
    ensures bit { IfOk result (λ bit. bit ≡ spec.pin_bit device.now port.now (option_map (λ d. d.now) index.entry)) }
    ensures inside { IfOk result (λ bit. IfSome bit (λ k. k < length device.now.ports)) }
{
    match bit_of(alloc, device, port, index)? {
        Some(number) => Ok(no_tap(device, number)),
        None => Ok(None),
    }
}

fn bit_of(
    alloc: Global,
    device: &Device,
    port: &str,
    index: Option<&str>,
) -> Result<Option<usize>, AllocError>
    requires { IfSome index (λ d. texts.is_number d.now ≡ true) }
    ensures { IfOk result (λ bit. bit ≡ spec.bit_of device.now port.now (option_map (λ d. d.now) index.entry)) }
{
    match index {
        None => device.find_port(alloc, port, None),
        Some(digits) => match index_of(digits) {
            Some(index) => device.find_port(alloc, port, Some(index)),
            None => Ok(None),
        },
    }
}

/// The bit of this number, unless it is the TAP's.
fn no_tap(device: &Device, number: usize) -> Option<usize>
    ensures bit { result ≡ spec.no_tap device.now number }
    ensures inside { IfSome result (λ k. k < length device.now.ports) }
{
    if number < device.port_count() && !device.port(number).is_tap {
        Some(number)
    } else {
        None
    }
}

/// The index that digits write. No description has one above 65,535.
fn index_of(digits: &str) -> Option<usize>
    requires { texts.is_number digits.now ≡ true }
    ensures { result ≡ spec.index_of digits.now }
{
    match digits.parse::<u16>() {
        Ok(index) => Some(usize::from(index)),
        Err(_) => None,
    }
}
