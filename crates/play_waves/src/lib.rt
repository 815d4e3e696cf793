//! The waves of a play: a value change dump (IEEE Std 1364-2001, clause 18) of the lines of the TAP, of the devices and
//! of the named nets, message by message; where it is asked for also of the bits that scans want, and of those that
//! fail, of the names of instructions, of each device's TDO, and of what each pin drives.
//!
//! They are drawn on boards of their own, on which the program is played once more, so that the play itself is as
//! without them.
#![tactic(auto)]

mod fronts;
mod laws;
mod pins;
mod plain;
mod scopes;
mod stage;
mod undrawn;
mod variables;
mod waves;

pub use fronts::begins_as_waves;
pub use laws::{
    a_pass_is_drawn_to_its_end, each_step_takes_its_cycles, waves_compute, what_fails_is_told,
    what_is_drawn_is_played, who_fights_is_drawn,
};
pub use plain::{WithoutStrings, pieces_are_one};
pub use stage::Stage;
pub use undrawn::{Undrawn, status_behind};
pub use wave_files::{Extras, codes_differ};
pub use waves::write_waves;
