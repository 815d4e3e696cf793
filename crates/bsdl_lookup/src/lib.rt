//! What is looked up while a boundary register is judged: ports by their names, the port bits that cells name, the
//! lowest cells that drive port bits, the cells that control others, and the cells by their numbers (BSDL: IEEE Std
//! 1149.1-2001, Annex B.8.3 and B.8.14).
#![tactic(auto)]

mod controls;
mod drivers;
mod keyed_ports;
mod numbered_ports;
mod port_index;
mod table;

pub use controls::controls_of;
pub use drivers::{Drivers, drivers_by_key};
pub use keyed_ports::{GroupedPort, KeyedPorts, keyed_ports_of, port_by_key, port_index_by_key};
pub use numbered_ports::NumberedPort;
pub use port_index::PortIndex;
pub use table::Table;
