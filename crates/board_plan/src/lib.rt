//! A board as it is wired, before power-up: its devices, its nets, and which instructions of a device have no meaning
//! here.
#![tactic(auto)]

mod all_cells;
mod cells;
mod instructions;
mod numbers;
mod plan;
mod words;

pub use all_cells::{all_cell_nets, all_port_nets, enter_pin, no_nets};
pub use chip_instructions::SharedDevice;
pub use instructions::{is_left_out, left_out, left_out_means_bypass};
pub use numbers::number_nets;
pub use plan::{Plan, PlannedDevice, PlannedNet, copy_nets};
pub use words::{core_bits, is_update, pull_of};
