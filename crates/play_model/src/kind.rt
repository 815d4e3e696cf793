//! What a player does after a failing step.

/// Whether a player stops after the first step that fails.
#[derive(Debug, Clone, Copy, PartialEq, Eq)]
pub enum Kind {
    /// It does: what follows the step is not played.
    Stops,
    /// It plays its program to the end, whatever fails.
    PlaysOn,
}
