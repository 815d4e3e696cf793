//! Worked command lines.

ghost use Rattle.command_line.specs.Usage.{UsageRows};

/// What each of these command lines asks for, or why it is refused, computed from the definitions.
pub fn usage_is_read()
    ensures { UsageRows }
{}
