//! How a play stands after some events.

use play_model::Ending;

/// How a joined play stands after some events.
#[derive(Debug, Clone, Copy, PartialEq, Eq)]
pub struct Standing {
    /// How many of these events moved a byte or an answer.
    pub moved: u64,
    /// How the play ended: once the board took `Q`, or was lost.
    pub ended: Option<Ending>,
    /// Whether it was lost.
    pub lost: bool,
}
