//! The default paths of the Serial Vector Format through the TAP controller.

ghost use Rattle.std.specs.Prelude.{◌≡◌, ◌↔◌, ◌+◌, ◌<◌, ◌≤◌, ◌++◌, Bool, true, length, IsOk, IfErr, IfSome};
ghost use Rattle.arrayvec.specs.ArrayVec.{array_vec_len};
ghost use Rattle.jt_tap.specs.Controller.{is_stable};
ghost use Rattle.jt_tap.specs.Paths as spec;
ghost use Rattle.jt_tap.specs.Paths.{DefaultPathsLead, PathsToShiftLead, PathsFromExit1Lead, Leads};
ghost use Rattle.jt_tap.specs.Stated as stated;
ghost use Rattle.jt_tap.specs.Controller.{Arrow};

use crate::{Column, State};
use arrayvec::ArrayVec;

/// The default path between two stable states: the states that are entered, in order, the last of them `to`
/// (Serial Vector Format, revision E, the STATE command).
///
/// Each is one rising edge of TCK from the one before. A pause is left over its own update, so whatever was shifted
/// there takes effect.
pub fn go(from: State, to: State) -> ArrayVec<State, 8>
    requires from { is_stable from ≡ true }
    requires to { is_stable to ≡ true }
    ensures path { result.items ≡ spec.go from to }
    ensures legal { Leads from result.items to }
    ensures some { 0 < length result.items }
    ensures short { length result.items ≤ 7 }
{
    default_path(from, to)
}

fn default_path(from: State, to: State) -> ArrayVec<State, 8>
    ensures { result.items ≡ spec.go from to }
{
    let mut path = ArrayVec::new();
    match (from, to) {
        (State::Reset, State::Reset | State::Idle) => path.push(to),
        _ => {
            append(&mut path, towards_idle(from));
            append(&mut path, from_idle(to));
        }
    }
    path
}

/// The default path from a stable state (asked) to the Shift state of a column (Serial Vector Format, revision E, SDR
/// and SIR): from RESET over IDLE, from a pause over its update.
///
/// That a scan leaves a pause over its update, even the pause of its own column, is the project's own choice: other
/// players continue a scan from its own pause.
pub fn to_shift(from: State, column: Column) -> ArrayVec<State, 8>
    requires { is_stable from ≡ true }
    ensures path { result.items ≡ spec.to_shift from column }
    ensures legal { Leads from result.items (spec.shift_state column) }
{
    let mut path = ArrayVec::new();
    append(&mut path, towards_idle(from));
    append(&mut path, shift_from_idle(column));
    path
}

/// The default path from the Exit1 state of a column to a stable state (asked; Serial Vector Format, revision E, ENDDR
/// and ENDIR): to its own pause at once, anywhere else over its update.
pub fn from_exit1(column: Column, to: State) -> ArrayVec<State, 8>
    requires { is_stable to ≡ true }
    ensures path { result.items ≡ spec.from_exit1 column to }
    ensures legal { Leads (spec.exit1_state column) result.items to }
{
    exit1_path(column, to)
}

fn exit1_path(column: Column, to: State) -> ArrayVec<State, 8>
    ensures { result.items ≡ spec.from_exit1 column to }
{
    let mut path = ArrayVec::new();
    match (column, to) {
        (Column::Dr, State::DrPause) => path.push(to),
        (Column::Ir, State::IrPause) => path.push(to),
        _ => {
            path.push(update_state(column));
            append(&mut path, from_idle(to));
        }
    }
    path
}

fn update_state(column: Column) -> State
    ensures { result ≡ spec.update_state column }
{
    match column {
        Column::Dr => State::DrUpdate,
        Column::Ir => State::IrUpdate,
    }
}

/// The path from IDLE, or from an Update state, to the Shift state of a column.
fn shift_from_idle(column: Column) -> &'static [State]
    ensures path { result.now ≡ spec.shift_from_idle column }
    ensures short { length result.now ≤ 4 }
{
    match column {
        Column::Dr => &[State::DrSelect, State::DrCapture, State::DrShift],
        Column::Ir => &[
            State::DrSelect,
            State::IrSelect,
            State::IrCapture,
            State::IrShift,
        ],
    }
}

/// The states on the way from a stable state to where a path goes on as from IDLE.
fn towards_idle(from: State) -> &'static [State]
    ensures path { result.now ≡ spec.towards_idle from }
    ensures short { length result.now ≤ 2 }
{
    match from {
        State::Reset => &[State::Idle],
        State::DrPause => &[State::DrExit2, State::DrUpdate],
        State::IrPause => &[State::IrExit2, State::IrUpdate],
        _ => &[],
    }
}

/// The path from IDLE, or from an Update state.
fn from_idle(to: State) -> &'static [State]
    ensures path { result.now ≡ spec.from_idle to }
    ensures short { length result.now ≤ 5 }
{
    match to {
        State::Reset => &[State::DrSelect, State::IrSelect, State::Reset],
        State::DrPause => &[
            State::DrSelect,
            State::DrCapture,
            State::DrExit1,
            State::DrPause,
        ],
        State::IrPause => &[
            State::DrSelect,
            State::IrSelect,
            State::IrCapture,
            State::IrExit1,
            State::IrPause,
        ],
        _ => &[State::Idle],
    }
}

/// Appends states to a path that has room for them.
fn append(path: &mut ArrayVec<State, 8>, states: &[State])
    requires { array_vec_len path.old + length states.now ≤ 8 }
    ensures { path.new.items ≡ path.old.items ++ states.now }
{
    for state in states {
        path.push(*state);
    }
}

/// The TMS of the one rising edge that leads from a state to another, if one edge does.
pub fn tms_of(from: State, to: State) -> Option<bool>
    ensures found { IfSome result (λ tms. Arrow from tms to) }
    ensures only { (tms : Bool) → Arrow from tms to → result ≡ Some tms }
{
    let tms = to.entered_by();
    if from.step(tms) == to {
        Some(tms)
    } else {
        None
    }
}

/// Whether each state of a path is one rising edge from the one before, the first from `from`; else the place of the
/// first that is not.
pub fn check(from: State, path: &[State]) -> Result<(), usize>
    ensures walk { IsOk result ↔ stated.IsWalk from path.now }
    ensures gap { IfErr result (λ place. stated.first_gap from path.now ≡ Some place) }
    ensures none { IsOk result ↔ (stated.first_gap from path.now ≡ None) }
{
    match gap(from, path) {
        Some(place) => Err(place),
        None => Ok(()),
    }
}

/// The first place of a path whose state is not one rising edge from the one before.
fn gap(from: State, path: &[State]) -> Option<usize>
    ensures { result ≡ stated.first_gap from path.now }
{
    let mut before = from;
    for (place, state) in path.iter().enumerate() {
        if !follows(before, *state) {
            return Some(place);
        }
        before = *state;
    }
    None
}

/// Whether a state is one rising edge from the one before.
fn follows(before: State, state: State) -> bool
    ensures { result ≡ stated.follows before state }
{
    tms_of(before, state).is_some()
}

/// The last state of a path, or where it begins if it is empty.
#[tactic(auto, using(crate::proofs::StatedPaths::ends_last))]
pub fn last_of(from: State, path: &[State]) -> State
    ensures { result ≡ spec.last_of from path.now }
{
    path.last().copied().unwrap_or(from)
}

/// Every default path leads by arrows of the state diagram from its first state to its last.
pub fn default_paths_lead()
    ensures between { DefaultPathsLead }
    ensures to_shift { PathsToShiftLead }
    ensures from_exit1 { PathsFromExit1Lead }
{}
