//! What holds of tables without strings.
ghost use Rattle.board_tables.specs.Keys.{JudgedByOtherKeys};

/// A device's table without the key `follow` is judged by its other keys alone.
pub fn judged_by_other_keys()
    ensures { JudgedByOtherKeys }
{}
