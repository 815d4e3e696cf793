//! What a description in BSDL says of a device (IEEE Std 1149.1-2001, Annex B): its first refusal, or the device that
//! it says once it is judged: its ports, bit by bit, the cells of its boundary register, and the whole.
#![tactic(auto)]

pub use bsdl_device::{
    Access, Cell, Control3, Device, Disabled, Function, Opcode, Pattern, Place, PortBit, PortMode,
};
pub use bsdl_values::Attribute;
pub use fault::BsdlFault;
pub use reading::read;

mod bits;
mod cells;
mod device;
mod fault;
mod form;
mod judge;
mod laws;
mod ports;
mod reading;

pub use laws::{
    descriptions_are_limited, every_cell_fits_its_device,
    every_cell_has_the_port_that_its_row_names, every_device_is_exact, every_device_is_limited,
    every_device_is_small, every_device_is_sound, pins_find_the_bits_of_rows,
};
