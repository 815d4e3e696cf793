//! The statements.
use jt_bits::Bits;
use jt_tap::State;
use svf_words::{TrstWord, Which};

/// A statement of SVF text, as it stands for itself.
#[derive(Debug, Drop)]
pub enum Statement {
    /// `ENDDR`: the state in which scans of data registers end.
    EndDr(State),
    /// `ENDIR`: the state in which scans of the instruction register end.
    EndIr(State),
    /// `FREQUENCY`: the period of TCK in picoseconds, rounded up and at least 1, or none where no frequency is given.
    Frequency(Option<u64>),
    /// `HDR`, `HIR`, `TDR`, `TIR`, `SDR` or `SIR`, of `len` bits. A field that is given has the bits that its digits
    /// write, bit 0 first: four for each digit, and none beyond `len`. Those above them, up to `len`, are 0:
    /// [`Bits::resized`] makes all of them. A field that is absent is `None`.
    Scan {
        which: Which,
        len: usize,
        tdi: Option<Bits>,
        tdo: Option<Bits>,
        mask: Option<Bits>,
        smask: Option<Bits>,
    },
    /// `RUNTEST`: the state to run in, the cycles of TCK, the least and the longest time in picoseconds, each rounded
    /// up, and the state to end in. A count or a least time is given.
    RunTest {
        run: Option<State>,
        count: Option<u32>,
        min_ps: Option<u64>,
        max_ps: Option<u64>,
        end: Option<State>,
    },
    /// `STATE`: the states to go through, at least one.
    States(Vec<State>),
    /// `TRST`.
    Trst(TrstWord),
}
