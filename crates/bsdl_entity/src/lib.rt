//! The outer form of a device description: the ports of its entity, which of them are single bits, and what its
//! attributes say (BSDL: IEEE Std 1149.1-2001, Annex B.8.1 to B.8.8).
#![tactic(auto)]

mod asking;
mod entity;
mod items;
mod keywords;
mod ports;
mod scalars;
mod stops;

pub use bsdl_values::Attribute;
pub use entity::{Outline, read_entity};
pub use items::Given;
pub use ports::{Group, Range};
