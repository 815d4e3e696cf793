//! What holds of every text of a pin, and of a string.
ghost use Rattle.board_tables.specs.PinTexts.{PinsAreReadAsSpelt};
ghost use Rattle.board_tables.specs.FollowTexts.{FollowsAreReadAsSpelt, TargetsAreAsSpelt};

/// A text is read as a pin exactly where it spells that pin: a device's name, a point, a port's name and, where the
/// port has several bits, an index in brackets.
pub fn pins_are_read_as_spelt()
    ensures { PinsAreReadAsSpelt }
{}

/// A text is read as a string of a core that follows exactly where it spells that string: a target, `=`, and a source,
/// behind a `!` where the string is inverted, with spaces at both ends and around `=` and `!`.
pub fn follows_are_read_as_spelt()
    ensures { FollowsAreReadAsSpelt }
{}

/// The target of a string, as its text spells it, is the port that it spells: its name, and its index in brackets, with
/// its digits as they stand.
pub fn targets_are_as_spelt()
    ensures { TargetsAreAsSpelt }
{}
