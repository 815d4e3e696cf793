//! The strings of a planned board as dependencies between its nets: the first of them on a loop, or an order of work in
//! which each stands behind those that it depends on.
#![tactic(auto)]

mod depending;
mod laws;
mod net_loops;
mod renumbering;

pub use depending::{dependencies, settle_strings};
pub use laws::no_loop_without_strings;
pub use net_loops::{Dependency, Settling, orders_have_each_once};
