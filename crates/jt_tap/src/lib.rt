//! The TAP controller of IEEE Std 1149.1-2001: its sixteen states and the one table by which they follow each other;
//! and the paths through it, those that the Serial Vector Format takes by default and those that a text writes.
#![tactic(auto)]

ghost use Rattle.std.specs.Prelude.{◌≡◌, find, IfSome};
ghost use Rattle.jt_tap.specs.Controller.{Arrow, ArrowsAreTheFunction, EnteredByOne, FiveOnesReset, entered_by, next};
ghost use Rattle.jt_tap.specs.Controller.{is_stable, work};
ghost use Rattle.jt_tap.specs.Words as spec;
ghost use Rattle.jt_tap.specs.Words.{IsWordOf, reads, word};

mod paths;

pub use paths::{check, default_paths_lead, from_exit1, go, last_of, tms_of, to_shift};

/// A column of the state diagram: the states that work on data registers, or those that work on the instruction
/// register (IEEE Std 1149.1-2001, 6.1).
#[derive(Debug, Clone, Copy, PartialEq, Eq, Default)]
pub enum Column {
    /// The data register that the present instruction selects.
    #[default]
    Dr,
    /// The instruction register.
    Ir,
}

/// What a device does in a state of its controller (IEEE Std 1149.1-2001, 6.1.1).
#[derive(Debug, Clone, Copy, PartialEq, Eq)]
pub enum Work {
    /// The instruction is reset, on the falling edge of TCK in the state.
    Resets,
    /// The column's register captures, on the rising edge that leaves the state.
    Captures(Column),
    /// The column's register shifts, on each rising edge on which the controller stands in the state.
    Shifts(Column),
    /// The column's register updates, on the falling edge in the state.
    Updates(Column),
    /// Nothing.
    Waits,
}

/// A state of the TAP controller, by the names of the Serial Vector Format (IEEE Std 1149.1-2001, 6.1).
#[derive(Debug, Clone, Copy, PartialEq, Eq, Default)]
pub enum State {
    /// Test-Logic-Reset, the state at power-up.
    #[default]
    Reset,
    /// Run-Test/Idle.
    Idle,
    /// Select-DR-Scan.
    DrSelect,
    /// Capture-DR.
    DrCapture,
    /// Shift-DR.
    DrShift,
    /// Exit1-DR.
    DrExit1,
    /// Pause-DR.
    DrPause,
    /// Exit2-DR.
    DrExit2,
    /// Update-DR.
    DrUpdate,
    /// Select-IR-Scan.
    IrSelect,
    /// Capture-IR.
    IrCapture,
    /// Shift-IR.
    IrShift,
    /// Exit1-IR.
    IrExit1,
    /// Pause-IR.
    IrPause,
    /// Exit2-IR.
    IrExit2,
    /// Update-IR.
    IrUpdate,
}

/// Every state once.
const STATES: [State; 16] = [
    State::Reset,
    State::Idle,
    State::DrSelect,
    State::DrCapture,
    State::DrShift,
    State::DrExit1,
    State::DrPause,
    State::DrExit2,
    State::DrUpdate,
    State::IrSelect,
    State::IrCapture,
    State::IrShift,
    State::IrExit1,
    State::IrPause,
    State::IrExit2,
    State::IrUpdate,
];

impl State {
    /// The state after a rising edge of TCK with this TMS.
    #[tactic(auto, using(crate::proofs::Arrows::arrows))]
    pub fn step(self, tms: bool) -> State
        ensures arrow { Arrow self tms result }
        ensures next { result ≡ next self tms }
    {
        match (self, tms) {
            (State::Reset, true) => State::Reset,
            (State::Reset, false) => State::Idle,
            (State::Idle, true) => State::DrSelect,
            (State::Idle, false) => State::Idle,
            (State::DrSelect, true) => State::IrSelect,
            (State::DrSelect, false) => State::DrCapture,
            (State::DrCapture, true) => State::DrExit1,
            (State::DrCapture, false) => State::DrShift,
            (State::DrShift, true) => State::DrExit1,
            (State::DrShift, false) => State::DrShift,
            (State::DrExit1, true) => State::DrUpdate,
            (State::DrExit1, false) => State::DrPause,
            (State::DrPause, true) => State::DrExit2,
            (State::DrPause, false) => State::DrPause,
            (State::DrExit2, true) => State::DrUpdate,
            (State::DrExit2, false) => State::DrShift,
            (State::DrUpdate, true) => State::DrSelect,
            (State::DrUpdate, false) => State::Idle,
            (State::IrSelect, true) => State::Reset,
            (State::IrSelect, false) => State::IrCapture,
            (State::IrCapture, true) => State::IrExit1,
            (State::IrCapture, false) => State::IrShift,
            (State::IrShift, true) => State::IrExit1,
            (State::IrShift, false) => State::IrShift,
            (State::IrExit1, true) => State::IrUpdate,
            (State::IrExit1, false) => State::IrPause,
            (State::IrPause, true) => State::IrExit2,
            (State::IrPause, false) => State::IrPause,
            (State::IrExit2, true) => State::IrUpdate,
            (State::IrExit2, false) => State::IrShift,
            (State::IrUpdate, true) => State::DrSelect,
            (State::IrUpdate, false) => State::Idle,
        }
    }

    /// The TMS of a rising edge that enters this state: each state is entered by one value alone.
    pub fn entered_by(self) -> bool
        ensures { result ≡ entered_by self }
    {
        !matches!(
            self,
            State::Idle
                | State::DrCapture
                | State::DrShift
                | State::DrPause
                | State::IrCapture
                | State::IrShift
                | State::IrPause
        )
    }

    /// What a device does in this state.
    pub fn work(self) -> Work
        ensures { result ≡ work self }
    {
        match self {
            State::Reset => Work::Resets,
            State::DrCapture => Work::Captures(Column::Dr),
            State::DrShift => Work::Shifts(Column::Dr),
            State::DrUpdate => Work::Updates(Column::Dr),
            State::IrCapture => Work::Captures(Column::Ir),
            State::IrShift => Work::Shifts(Column::Ir),
            State::IrUpdate => Work::Updates(Column::Ir),
            _ => Work::Waits,
        }
    }

    /// Whether this is RESET, IDLE, DRPAUSE or IRPAUSE: the states in which a program of the Serial Vector Format may
    /// rest.
    pub fn is_stable(self) -> bool
        ensures { result ≡ is_stable self }
    {
        matches!(
            self,
            State::Reset | State::Idle | State::DrPause | State::IrPause
        )
    }

    /// The state's word in the Serial Vector Format, in upper case.
    pub fn word(self) -> &'static str
        ensures { result.now ≡ word self }
    {
        match self {
            State::Reset => "RESET",
            State::Idle => "IDLE",
            State::DrSelect => "DRSELECT",
            State::DrCapture => "DRCAPTURE",
            State::DrShift => "DRSHIFT",
            State::DrExit1 => "DREXIT1",
            State::DrPause => "DRPAUSE",
            State::DrExit2 => "DREXIT2",
            State::DrUpdate => "DRUPDATE",
            State::IrSelect => "IRSELECT",
            State::IrCapture => "IRCAPTURE",
            State::IrShift => "IRSHIFT",
            State::IrExit1 => "IREXIT1",
            State::IrPause => "IRPAUSE",
            State::IrExit2 => "IREXIT2",
            State::IrUpdate => "IRUPDATE",
        }
    }

    /// The state whose word this is, in any case of its letters; `None` for every other text.
    pub fn from_word(text: &[u8]) -> Option<State>
        ensures found { IfSome result (λ s. IsWordOf s text.now) }
        ensures only { (s : State) → IsWordOf s text.now → result ≡ Some s }
    {
        first_read(&STATES, text)
    }
}

/// The first of the states whose word the text is.
fn first_read(states: &[State], text: &[u8]) -> Option<State>
    ensures { result ≡ find (reads text.now) states.now }
{
    states.iter().copied().find(|state| reads(text, *state))
}

/// Whether the text is the state's word, in any case of its letters.
fn reads(text: &[u8], state: State) -> bool
    ensures { result ≡ spec.reads text.now state }
{
    text.eq_ignore_ascii_case(state.word().as_bytes())
}

/// The set of arrows and the function are one table.
pub fn arrows_are_the_function()
    ensures { ArrowsAreTheFunction }
{}

/// Each state is entered by one value of TMS alone.
pub fn each_state_is_entered_by_one_tms()
    ensures { EnteredByOne }
{}

/// Five rising edges with TMS 1 lead from every state to RESET, and fewer do not.
pub fn five_ones_reset()
    ensures { FiveOnesReset }
{}
