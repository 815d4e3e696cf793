//! A row of the benchmark: a call that is measured, and how it is printed.
use std::alloc::AllocError;
use std::io;
use std::time::Instant;

/// How often each row is measured; the least time counts.
const ROUNDS: u8 = 7;

/// What one measured call did.
#[derive(Drop, Clone, Copy)]
pub struct Row {
    /// How many bits, bytes or edges a round went over.
    pub count: usize,
    /// A number of what came out, which C's row must have too.
    pub check: u64,
}

/// What a row counts.
#[derive(Drop, Clone, Copy)]
pub enum Unit {
    Bit,
    Byte,
    Edge,
}

impl Unit {
    fn word(self) -> &'static str {
        match self {
            Unit::Bit => "bit",
            Unit::Byte => "byte",
            Unit::Edge => "edge",
        }
    }
}

/// A number of all bytes in their order.
pub fn digest(bytes: &[u8]) -> u64 {
    let mut digest: u64 = 0;
    for byte in bytes {
        digest = digest.rotate_left(5) ^ u64::from(*byte);
    }
    digest
}

/// Prints a row's name and unit, which C's row has too, its least time of a round in nanoseconds, its count and its
/// check.
pub fn print_row<F: FnMut() -> Result<Row, AllocError>>(
    rt: &HostRuntime,
    name: &str,
    unit: Unit,
    mut round: F,
) -> io::Result<()>
    requires { (f : _) → F.pre f }
{
    let mut least = u64::MAX;
    let mut count = 0;
    let mut check = 0;
    for _ in 0..ROUNDS {
        let start = Instant::now(rt)?;
        let row = round()?;
        let time = u64::try_from(start.elapsed(rt)?.as_nanos()).unwrap_or(u64::MAX);
        least = least.min(time);
        count = row.count;
        check = row.check;
    }
    let unit = unit.word();
    rt.println(format_args!("{name} {unit} {least} {count} {check}"))
}
