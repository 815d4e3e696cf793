//! What is drawn of the messages of steps: the lines of the TAP, the devices and the nets as each message leaves them,
//! rests in one piece, and of the bits that scans want which are judged and which fail.
#![tactic(auto)]

mod drawing;
mod holding;
mod judging;
mod marks;
mod notes;
mod quiet;
mod steps;

pub use drawing::Drawing;
pub use judging::draw_judged;
pub use marks::Marks;
pub use notes::Note;
pub use steps::{draw_opening, draw_step};
