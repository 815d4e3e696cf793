//! Levels of nets, by counting their drivers.
#![tactic(auto)]

ghost use Rattle.std.specs.Prelude.{◌≡◌, ◌≢◌, ◌↔◌, IsTrue, [], ◌∷◌};
ghost use Rattle.pin_nets.specs.Levels as levels;
ghost use Rattle.pin_nets.specs.Levels.{four};

pub use build::NetSpec;
pub use nets::Nets;

mod build;
mod nets;
mod rows;
mod ruled;

/// What a pin drives.
#[derive(Debug, Clone, Copy, PartialEq, Eq)]
pub enum Drive {
    /// This level, against any weak driver.
    Strong(bool),
    /// This level, where no driver of the net is strong.
    Weak(bool),
    /// No level.
    Nothing,
}

/// The level of a net, by its strong drivers, and by its weak ones where there is no strong one.
#[derive(Debug, Clone, Copy, PartialEq, Eq)]
pub enum Level {
    /// Drivers of 0 alone.
    Zero,
    /// Drivers of 1 alone.
    One,
    /// Drivers of 0 and of 1, equally strong; a port reads 0.
    Contend,
    /// No driver; a port reads 1.
    Float,
}

/// A pin: the place of its device on the board, the one nearest TDO being 0, and the number of its port bit.
#[derive(Debug, Drop, Clone, Copy, PartialEq, Eq, PartialOrd, Ord)]
pub struct Pin {
    pub device: usize,
    pub port: usize,
}

/// A string of a core that follows: the core bit of cell `cell` is what port bit `source` of the same device sees, or
/// its opposite.
#[derive(Debug, Drop, Clone, Copy, PartialEq, Eq)]
pub struct Follow {
    pub cell: usize,
    pub source: usize,
    pub inverted: bool,
}

/// How many drivers of each kind a net has.
#[derive(Debug, Clone, Copy)]
pub(crate) struct Counts {
    strong_zeros: usize,
    strong_ones: usize,
    weak_zeros: usize,
    weak_ones: usize,
}

const NO_DRIVER: Counts = Counts {
    strong_zeros: 0,
    strong_ones: 0,
    weak_zeros: 0,
    weak_ones: 0,
};

/// The pull of a net, a weak driver.
#[derive(Debug, Clone, Copy, PartialEq, Eq)]
pub enum Pull {
    /// Towards 1.
    Up,
    /// Towards 0.
    Down,
    /// None.
    Free,
}

/// What a net shows beside what its drivers say: a net of a board file is counted, one with a fault may have another
/// rule.
#[derive(Debug, Clone, Copy, PartialEq, Eq)]
pub enum Rule {
    /// What its drivers say, by counting them.
    Counted,
    /// This bit, whatever drives it.
    Tied(bool),
    /// Where strong drivers are opposed, 1.
    WiredOr,
    /// Where strong drivers are opposed, what the strong ones among its first pins say, so many; 0 where these are
    /// opposed too, or there are none.
    Led(usize),
}

fn pull_counts(pull: Pull) -> Counts
    ensures { result ≡ levels.counts_of (levels.pull_drive pull ∷ []) }
{
    match pull {
        Pull::Up => Counts {
            weak_ones: 1,
            ..NO_DRIVER
        },
        Pull::Down => Counts {
            weak_zeros: 1,
            ..NO_DRIVER
        },
        Pull::Free => NO_DRIVER,
    }
}

/// Four numbers by their names.
fn counts_of_row(counts: &[usize; 4]) -> Counts
    ensures { four result ≡ counts.now }
{
    Counts {
        strong_zeros: counts[0],
        strong_ones: counts[1],
        weak_zeros: counts[2],
        weak_ones: counts[3],
    }
}

/// The four numbers in a row.
fn row_of_counts(counts: Counts) -> [usize; 4]
    ensures { result ≡ four counts }
{
    [
        counts.strong_zeros,
        counts.strong_ones,
        counts.weak_zeros,
        counts.weak_ones,
    ]
}

/// The level of a net by its numbers of drivers: the strong ones decide, else the weak ones, else it floats.
fn level_of(counts: Counts) -> Level
    ensures { result ≡ levels.level_by counts }
{
    of_counts(
        counts.strong_zeros,
        counts.strong_ones,
        of_counts(counts.weak_zeros, counts.weak_ones, Level::Float),
    )
}

/// Whether two levels differ.
fn differ(one: Level, other: Level) -> bool
    ensures { IsTrue result ↔ (one ≢ other) }
{
    one != other
}

fn of_counts(zeros: usize, ones: usize, otherwise: Level) -> Level
    ensures { result ≡ levels.of_counts zeros ones otherwise }
{
    match (zeros == 0, ones == 0) {
        (true, true) => otherwise,
        (true, false) => Level::One,
        (false, true) => Level::Zero,
        (false, false) => Level::Contend,
    }
}

/// What a port sees of a net: Contend reads 0, Float reads 1.
pub fn reads(level: Level) -> bool
    ensures { result ≡ levels.reads level }
{
    matches!(level, Level::One | Level::Float)
}
