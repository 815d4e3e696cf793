//! The four numbers of a net's drivers where they stand.

ghost use Rattle.std.specs.Prelude.{◌≡◌};
ghost use Rattle.pin_nets.specs.Levels.{Has, IsFew, level_by};
ghost use Rattle.pin_nets.specs.Levels as levels;
ghost use Rattle.pin_nets.specs.Rows.{IsRow, RowReplaces, numbers, place_of};
ghost use Rattle.pin_nets.specs.declared.Drive.TheVariants.{Nothing};

use crate::Drive;

/// A driver of the second kind takes the place of one of the first. Answers what ports see of a net with the new
/// numbers.
pub(crate) fn exchange(row: &mut [usize; 4], old: Drive, new: Drive) -> bool
    requires row { IsRow row.old }
    requires there { Has old (numbers row.old) }
    requires few { IsFew (numbers row.old) }
    ensures row { RowReplaces row.old row.new old new }
    ensures seen { result ≡ levels.reads (level_by (numbers row.new)) }
{
    take_out(row, old);
    put_in(row, new);
    seen_by(row)
}

/// One driver less.
fn take_out(row: &mut [usize; 4], drive: Drive)
    requires row { IsRow row.old }
    requires there { Has drive (numbers row.old) }
    ensures { RowReplaces row.old row.new drive Nothing }
{
    if let Some(k) = place_of(drive) {
        row[k] -= 1;
    }
}

/// One driver more.
fn put_in(row: &mut [usize; 4], drive: Drive)
    requires row { IsRow row.old }
    requires few { IsFew (numbers row.old) }
    ensures { RowReplaces row.old row.new Nothing drive }
{
    if let Some(k) = place_of(drive) {
        row[k] += 1;
    }
}

/// The place of a driver's number among the four.
fn place_of(drive: Drive) -> Option<usize>
    ensures { result ≡ place_of drive }
{
    match drive {
        Drive::Strong(bit) => Some(usize::from(bit)),
        Drive::Weak(bit) => Some(2 + usize::from(bit)),
        Drive::Nothing => None,
    }
}

/// What ports see of a net with these numbers: 0 where a driver of 0 is strong, else 1 where one of 1 is, else 0
/// where a weak one drives 0, else 1.
fn seen_by(row: &[usize; 4]) -> bool
    requires { IsRow row.now }
    ensures { result ≡ levels.reads (level_by (numbers row.now)) }
{
    (row[0] == 0) & ((row[1] != 0) | (row[2] == 0))
}
