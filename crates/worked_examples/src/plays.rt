//! Worked examples of boards and programs, computed from the definitions that all contracts cite.
ghost use Rattle.worked_examples.specs.Following.{FollowingRows};
ghost use Rattle.worked_examples.specs.Plays.{PlayRows};
ghost use Rattle.worked_examples.specs.Single.{EdgeRows};

/// Plays of small programs on small boards: the bytes sent, the ending by edges and by whole registers, and the
/// registers and net levels left, each computed from the definitions.
pub fn plays_compute()
    ensures { PlayRows }
{}

/// One device edge by edge, refused bytes, and plays under schedules of two pipes, computed in the same way.
pub fn edges_compute()
    ensures { EdgeRows }
{}

/// Boards whose cores follow what their pins see, computed in the same way.
pub fn following_computes()
    ensures { FollowingRows }
{}
