//! The devices and nets that the tables of a board file say: the descriptions that it names, each read once, which port
//! bits its pins are, and the strings of its cores.
#![tactic(auto)]

mod described;
mod found;
mod known;
mod library;
mod misplaced;
mod pins;
mod plan;
mod strings;
mod twice;

pub use described::known_of;
pub use found::Unfound;
pub use known::plan_known_nets;
pub use library::{Describe, Library, Unread, devices_of, read_files};
pub use misplaced::first_twice;
pub use pins::port_bit;
pub use plan::plan_devices;
pub use twice::has_pin_twice;
