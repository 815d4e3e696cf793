//! Loops by the numbers of nets are circles over the nets.
ghost use Rattle.jt_board.specs.Circles.{LoopsAreCircles, NoLoopIsNoCircle};

/// Where strings fit their devices, one is on a loop by the numbers of nets exactly where its source's net depends, in
/// any number of steps, on its target's net.
pub fn loops_are_circles()
    ensures { LoopsAreCircles }
{}

/// Where by numbers of nets no string is on a loop, no net depends on itself by targets and sources.
pub fn no_loop_is_no_circle()
    ensures { NoLoopIsNoCircle }
{}
