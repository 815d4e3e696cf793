//! Wave files: a value change dump (IEEE Std 1364-2001, clause 18) of the lines of the TAP, of the devices and of the
//! named nets of a board, and where it is asked for of the bits that scans want, of the names of instructions, of each
//! device's TDO, and of what each pin drives. The codes and numbers of their variables, times and values; what each
//! shows at the start; and what differs between two states of a board.
#![tactic(auto)]

mod binary;
mod changes;
mod codes;
mod drives;
mod extras;
mod laws;
mod numbering;
mod shown;
mod stamps;
mod start;

pub use changes::{is_same_state, write_byte_change, write_changes};
pub use codes::{write_bits_line, write_byte, write_code, write_number, write_word_line};
pub use extras::{Extras, write_extra_changes};
pub use laws::codes_differ;
pub use numbering::{
    EXTRAS_OF_DEVICE, FIRST_OF_DEVICES, STATEMENT_VARIABLE, VARIABLES_OF_DEVICE, first_of_drives,
    first_of_extras, first_of_notes,
};
pub use shown::{Shown, UNKNOWN, wire};
pub use stamps::{write_stamp, write_tck, write_time};
pub use start::write_first_values;
