//! Worked board files: small tables over small devices, and what the definitions make of them.
ghost use Rattle.worked_examples.specs.BoardFileRows.{BoardRows, FollowRows, LoopRows};

#[cfg(test)]
mod tests;

/// Board files over three small devices: how they are wired, or why they are refused, computed from the definitions.
pub fn rows_compute()
    ensures { BoardRows }
{}

/// Board files with cores that follow: the strings of their devices, or why they are refused, computed from the
/// definitions.
pub fn follow_rows_compute()
    ensures { FollowRows }
{}

/// Board files on which a string is on a loop: which target the refusal names, computed from the definitions.
pub fn loop_rows_compute()
    ensures { LoopRows }
{}
