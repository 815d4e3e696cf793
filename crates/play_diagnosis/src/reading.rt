//! What a log says.

ghost use Rattle.std.specs.Prelude.{◌≡◌, ◌<◌, ◌^◌, Some, length, option_map, slice_get};
ghost use Rattle.std.specs.List.{list_any};
ghost use Rattle.scan_vectors.specs.Held.{bits};
ghost use Rattle.svf_programs.specs.Seen.{numbered};
ghost use Rattle.svf_programs.specs.Sizes.{program_of};
ghost use Rattle.play_diagnosis.specs.Reading as spec;
ghost use Rattle.play_diagnosis.specs.Readings.{answered, reading_answered};

use crate::lines::{Line, cut, line_of};
use arrayvec::ArrayVec;
use jt_limits::LIMITS;
use scan_vectors::{Failures, Mismatch, Vector};
use svf_programs::{Action, Program, Step};

/// So many bits that fail are printed.
const MOST_TOLD: usize = 256;

/// What a log says of a play.
#[derive(Debug, Drop)]
pub enum Said {
    /// It passed.
    Pass,
    /// This is the first bit that failed; the play stopped there.
    First(Mismatch),
    /// These are the bits that failed in a play to its end, of which the first 256 are listed.
    All(Failures),
}

/// Why a log does not say how a play ended, with the number of a line, counted from 1.
#[derive(Debug, Drop, Clone, Copy, PartialEq, Eq)]
pub enum LogFault {
    /// L1: no play prints this line, or not behind the lines before it.
    BadLine(usize),
    /// L2: the play came to no verdict: it was lost, or got a bad answer; or the bits that fail are listed without
    /// their number.
    NoVerdict(usize),
    /// L3: the program has no such bit.
    NoSuchBit(usize),
    /// L4: the log has more than 16 MiB.
    TooLarge,
    /// L5: no line says how a play ended.
    Empty,
}

/// What was read so far.
#[derive(Debug, Drop)]
pub(crate) struct Reading {
    /// How many lines.
    lines: usize,
    /// Whether one of them says that the play passed.
    passes: bool,
    /// The bits that failed.
    bits: ArrayVec<Mismatch, 256>,
    /// The line of the last of them.
    last: usize,
    /// How many they are, where a line said it.
    total: Option<u64>,
}

/// What a log says of a play of a program: what `play`, `loop` and `connect` print, each line of it ended by a line
/// feed, a carriage return before it or not. It takes no memory.
pub fn read_log(program: &Program, log: &[u8]) -> Result<Said, LogFault>
    ensures { answered result ≡ spec.read (program_of program.now) log.now }
{
    if log.len() > LIMITS.text_bytes {
        return Err(LogFault::TooLarge);
    }
    read_lines(program, log)?.verdict()
}

/// Reads the lines of a log, up to the first that does not fit.
fn read_lines(program: &Program, log: &[u8]) -> Result<Reading, LogFault>
    requires { length log.now < 2 ^ 32 }
    ensures { reading_answered result
        ≡ spec.with_lines (program_of program.now) spec.nothing_read (spec.lines log.now) }
{
    let mut reading = Reading::new();
    let mut rest = Some(log);
    while let Some(left) = rest {
        let (line, behind) = cut(left, b'\n');
        reading.take(program, line_of(line))?;
        rest = behind;
    }
    Ok(reading)
}

impl Reading {
    ghost use Rattle.std.specs.Prelude.{◌≡◌, ◌<◌, ◌^◌};
    ghost use Rattle.svf_programs.specs.Sizes.{program_of};
    ghost use Rattle.play_diagnosis.specs.Reading as spec;
    ghost use Rattle.play_diagnosis.specs.Readings.{answered, left_so, reading_of};

    /// Nothing yet.
    fn new() -> Reading
        ensures { reading_of result ≡ spec.nothing_read }
    {
        Reading {
            lines: 0,
            passes: false,
            bits: ArrayVec::new(),
            last: 0,
            total: None,
        }
    }

    /// Takes one line more. What was read is of no use where it is refused.
    fn take(&mut self, program: &Program, line: Line) -> Result<(), LogFault>
        requires { self.old.lines < 2 ^ 32 }
        ensures { left_so result self.new
            ≡ spec.with_line (program_of program.now) (reading_of self.old) line }
    {
        self.lines += 1;
        match line {
            Line::Beside => Ok(()),
            Line::Unknown => Err(LogFault::BadLine(self.lines)),
            Line::Cut => Err(LogFault::NoVerdict(self.lines)),
            Line::Pass => self.pass(),
            Line::Fail(bit) => self.fail(program, bit),
            Line::Total(total) => self.count(total),
        }
    }

    /// The play passed, as this line says.
    fn pass(&mut self) -> Result<(), LogFault>
        ensures { left_so result self.new ≡ spec.passed (reading_of self.old) }
    {
        if self.passes || !self.bits.is_empty() {
            return Err(LogFault::BadLine(self.lines));
        }
        self.passes = true;
        Ok(())
    }

    /// A bit failed, as this line says.
    fn fail(&mut self, program: &Program, bit: Mismatch) -> Result<(), LogFault>
        ensures { left_so result self.new ≡ spec.failed (program_of program.now) (reading_of self.old) bit }
    {
        if self.passes || self.total.is_some() || self.bits.len() >= MOST_TOLD {
            return Err(LogFault::BadLine(self.lines));
        }
        if !has_bit(program, bit) {
            return Err(LogFault::NoSuchBit(self.lines));
        }
        self.bits.push(bit);
        self.last = self.lines;
        Ok(())
    }

    /// So many bits failed, as this line says.
    fn count(&mut self, total: u64) -> Result<(), LogFault>
        ensures { left_so result self.new ≡ spec.counted (reading_of self.old) total }
    {
        if self.total.is_some() || !lists_all(self.bits.len(), total) {
            return Err(LogFault::BadLine(self.lines));
        }
        self.total = Some(total);
        Ok(())
    }

    /// What a log says that ends here.
    fn verdict(self) -> Result<Said, LogFault>
        ensures { answered result ≡ spec.verdict (reading_of self) }
    {
        if self.passes {
            return Ok(Said::Pass);
        }
        match self.total {
            Some(total) => Ok(Said::All(Failures {
                list: self.bits,
                total,
            })),
            None => first_of(&self.bits, self.last),
        }
    }
}

/// Whether so many bits are all that failed of this number, up to the most that are listed; one at least.
fn lists_all(listed: usize, total: u64) -> bool
    ensures { result ≡ spec.lists_all listed total }
{
    listed > 0 && listed as u64 == total.min(MOST_TOLD as u64)
}

/// The first bit that failed, where it is listed alone.
fn first_of(bits: &[Mismatch], last: usize) -> Result<Said, LogFault>
    ensures { answered result ≡ spec.by_bits last bits.now }
{
    match bits {
        [] => Err(LogFault::Empty),
        [bit] => Ok(Said::First(*bit)),
        _ => Err(LogFault::NoVerdict(last)),
    }
}

/// Whether a statement of a program has this bit in its vector.
fn has_bit(program: &Program, bit: Mismatch) -> bool
    ensures { result ≡ spec.has_bit (program_of program.now) bit }
{
    for step in program.steps() {
        if is_of(&step, bit) {
            return true;
        }
    }
    false
}

/// Whether a step is the scan of a bit.
fn is_of(step: &Step<'_>, bit: Mismatch) -> bool
    ensures { result ≡ spec.is_of bit (numbered step.now) }
{
    match &step.what {
        Action::Scan { vector, .. } => step.number == bit.command && scans_bit(vector, bit),
        _ => false,
    }
}

/// Whether a vector has a bit.
fn scans_bit(vector: &Vector<'_>, bit: Mismatch) -> bool
    ensures { result ≡ list_any (spec.is_bit_of bit) (bits vector.now) }
{
    for i in 0..vector.len() {
        if stands_at(vector, i, bit) {
            return true;
        }
    }
    false
}

/// Whether this is the i-th bit of a vector.
fn stands_at(vector: &Vector<'_>, i: usize, bit: Mismatch) -> bool
    requires { i < length (bits vector.now) }
    ensures { Some result ≡ option_map (spec.is_bit_of bit) (slice_get (bits vector.now) i) }
{
    let (part, place) = vector.part(i);
    part == bit.part && place == bit.bit
}
