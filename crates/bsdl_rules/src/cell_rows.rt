//! Whether the port and the control of a row of the boundary register fit.
ghost use Rattle.std.specs.Prelude.{◌≡◌, ◌≤◌, ◌&&◌, not, option_map};
ghost use Rattle.jt_limits.specs.Limits.{subscript_limit};
ghost use Rattle.bsdl_device.specs.Driving as driving;
ghost use Rattle.bsdl_text.specs.Words.{upper};
ghost use Rattle.bsdl_text.specs.NumberView.{value};
ghost use Rattle.bsdl_values.specs.CellView as cells_view;
ghost use Rattle.bsdl_text.specs.Words.{is_among};
ghost use Rattle.bsdl_description.specs.Describing as described;
ghost use Rattle.bsdl_description.specs.View.{taps as taps_view};
ghost use Rattle.bsdl_lookup.specs.Drivers.{driver_at, is_below};
ghost use Rattle.bsdl_rules.specs.Fits as spec;
ghost use Rattle.bsdl_rules.specs.Holds.{AreControls};

use bsdl_description::{Taps, names_tap};
use bsdl_device::Function;
use bsdl_lookup::{Drivers, PortIndex};
use bsdl_text::Digits;
use bsdl_values::{CellRow, Controlling, PortName};
use jt_limits::{ABOVE_SUBSCRIPTS, SUBSCRIPT_LIMIT};
use std::collections::BTreeSet;

pub(crate) fn has_no_port(function: Function) -> bool
    ensures { result ≡ spec.has_no_port function }
{
    matches!(
        function,
        Function::Control | Function::ControlR | Function::Internal
    )
}

/// Whether a port bit is no TAP's, and no lower cell drives it.
pub(crate) fn port_index_fits<'a>(
    taps: &Taps<'_>,
    drivers: &Drivers<'a>,
    function: Function,
    port: PortName<'_>,
    port_index: PortIndex<'a>,
    number: usize,
) -> bool
    ensures { result ≡ (not (is_among (taps_view taps.now) (upper port.entry.name.text.now))
        && not (driving.drives function && is_below (driver_at drivers.now port_index.entry) number)) }
{
    !names_tap(taps, port.name.text) && !drives_again(drivers, function, port_index, number)
}

fn drives_again<'a>(
    drivers: &Drivers<'a>,
    function: Function,
    port_index: PortIndex<'a>,
    number: usize,
) -> bool
    ensures { result ≡ (driving.drives function && is_below (driver_at drivers.now port_index.entry) number) }
{
    function.drives() && drivers.is_driven_below(port_index, number)
}

/// Whether the control of a cell is there, where the function needs one, and is a control cell or, for output2, the
/// cell itself.
pub(crate) fn control_fits(
    controls: &BTreeSet<usize>,
    function: Function,
    control: Option<Controlling<'_>>,
    number: usize,
) -> bool
    requires { number ≤ subscript_limit }
    ensures { (d : described.Description) → AreControls controls.now d → result
        ≡ spec.control_fits d number function (option_map cells_view.control control.entry) }
{
    match function {
        Function::Output3 | Function::Bidir => match control {
            Some(control) => is_control_cell(controls, control.cell),
            None => false,
        },
        Function::Output2 => match control {
            Some(control) => {
                control.cell.up_to(ABOVE_SUBSCRIPTS) == number
                    || is_control_cell(controls, control.cell)
            }
            None => true,
        },
        _ => true,
    }
}

/// Whether a cell of this number is a control cell.
fn is_control_cell(controls: &BTreeSet<usize>, cell: Digits<'_>) -> bool
    ensures { (d : described.Description) → AreControls controls.now d → result
        ≡ spec.is_control_cell d (value cell.entry) }
{
    let number = cell.up_to(ABOVE_SUBSCRIPTS);
    number <= SUBSCRIPT_LIMIT && controls.contains(&number)
}
