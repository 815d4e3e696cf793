//! The captures of the data column in a program's run on a board, noted.
ghost use Rattle.std.specs.Prelude.{◌≡◌, ◌<◌, ◌++◌, ◌∷◌, [], map, IfOk, OnOk};
ghost use Rattle.scan_vectors.specs.Held.{bits};
ghost use Rattle.scan_vectors.specs.Vector.{tdis};
ghost use Rattle.jt_tap.specs.Controller as controller;
ghost use Rattle.svf_programs.specs.Left.{left};
ghost use Rattle.svf_programs.specs.Seen as kept;
ghost use Rattle.svf_programs.specs.Sizes.{program_of};
ghost use Rattle.svf_programs.specs.Sound.{AllWithin, IsWithin};
ghost use Rattle.board_faults.specs.Made.{PowersUp, board_of};
ghost use Rattle.board_faults.specs.Resting.{IsResting};
ghost use Rattle.board_model.specs.Chain.{members};
ghost use Rattle.board_model.specs.Resting.{IsAtRest};
ghost use Rattle.board_model.specs.Whole as whole;
ghost use Rattle.board_model.specs.Whole.{AtRest};
ghost use Rattle.board_plan.specs.Planned.{all_pins};
ghost use Rattle.board_plan.specs.View.{wiring};
ghost use Rattle.play_model.specs.Meaning as meaning;
ghost use Rattle.fault_events.specs.Captures.{AreLeft, Fits, Goes, GoesOn, captures, noted_at, seen};
ghost use Rattle.fault_events.specs.Events as events;

use crate::notes::Note;
use crate::noting::note_pins;
use crate::tables::{PinNumbers, number_pins};
use board_faults::{Board, play_opening, play_step};
use board_plan::{Plan, PlannedDevice};
use jt_tap::{Column, State, Work};
use scan_vectors::{Failures, Part3, Vector, join};
use std::alloc::{AllocError, Global};
use svf_programs::{Action, Program, Step, Steps};

/// A capture of the data column: the number of its statement, counted from 1, and what is noted of each pin of the
/// board's nets before it, net after net.
#[derive(Drop)]
pub struct Capture {
    pub command: usize,
    pub pins: Vec<Note>,
}

/// Where captures are noted: on a board of these devices, its pins by these numbers, at the statement with this number.
#[derive(Drop, Clone, Copy)]
struct At<'a> {
    alloc: Global,
    devices: &'a [PlannedDevice],
    numbers: &'a PinNumbers,
    command: usize,
}

/// Captures, one after another.
type List = Vec<Capture>;

/// Notes a capture of a board at rest behind those listed. Refused where memory runs out.
fn note_capture(
    at: At<'_>,
    vector: &Vector,
    board: &Board,
    list: &mut List,
) -> Result<(), AllocError>
    requires { Fits (members board.now.chips) at.devices.now at.numbers.now }
    ensures { (m : AtRest) → IsAtRest board.now m → OnOk result (map seen list.new.items ≡ map seen list.old.items
        ++ noted_at at.entry.numbers.now.pins.items
        (record { command = at.entry.command; board = m; vector = bits vector.now }) ∷ []) }
{
    let pins = note_pins(at.alloc, board.chain(), at.devices, at.numbers, vector)?;
    list.push(Capture {
        command: at.command,
        pins,
    })?;
    Ok(())
}

/// A board at rest arrives in a stable state; a capture of the data column is noted.
fn arrive(at: At<'_>, state: State, board: &mut Board, list: &mut List) -> Result<(), AllocError>
    requires rests { IsResting board.old }
    requires fits { Fits (members board.old.chips) at.devices.now at.numbers.now }
    ensures { (m : AtRest) → IsAtRest board.old m → OnOk result (Goes at.entry.numbers.now.pins.items
        (events.events_arriving at.entry.command state m) (whole.arrive state m) board.new list.old.items
        list.new.items) }
{
    if let State::DrPause = state {
        note_capture(at, &no_vector(), board, list)?;
    }
    board.arrive(state);
    Ok(())
}

/// The vector that shifts in nothing.
fn no_vector() -> Vector<'static>
    ensures { bits result ≡ [] }
{
    let none = Part3 {
        len: 0,
        tdi: None,
        tdo: None,
        mask: None,
    };
    join(none, none, none)
}

/// A board at rest goes to a stable state by the default path; a capture of the data column is noted.
fn go(at: At<'_>, state: State, board: &mut Board, list: &mut List) -> Result<(), AllocError>
    requires rests { IsResting board.old }
    requires fits { Fits (members board.old.chips) at.devices.now at.numbers.now }
    ensures { (m : AtRest) → IsAtRest board.old m → OnOk result (Goes at.entry.numbers.now.pins.items
        (events.events_arriving at.entry.command state (whole.settle m)) (meaning.move_to state m) board.new
        list.old.items list.new.items) }
{
    board.settle();
    arrive(at, state, board, list)
}

/// The same, unless the board rests there.
fn go_unless_there(
    at: At<'_>,
    state: State,
    board: &mut Board,
    list: &mut List,
) -> Result<(), AllocError>
    requires rests { IsResting board.old }
    requires fits { Fits (members board.old.chips) at.devices.now at.numbers.now }
    ensures { (m : AtRest) → IsAtRest board.old m → OnOk result (Goes at.entry.numbers.now.pins.items
        (events.events_moving at.entry.command state m) (meaning.move_unless_there state m) board.new list.old.items
        list.new.items) }
{
    if is_at(board.place(), state) {
        return Ok(());
    }
    go(at, state, board, list)
}

/// Whether two states are one.
fn is_at(here: State, state: State) -> bool
    ensures { result ≡ controller.is_at here state }
{
    here == state
}

/// A board at rest takes one named state of a stated path; a capture of the data column is noted.
fn pass(at: At<'_>, state: State, board: &mut Board, list: &mut List) -> Result<(), AllocError>
    requires rests { IsResting board.old }
    requires fits { Fits (members board.old.chips) at.devices.now at.numbers.now }
    ensures { (m : AtRest) → IsAtRest board.old m → OnOk result (Goes at.entry.numbers.now.pins.items
        (events.events_passing at.entry.command (controller.work state) m)
        (record (whole.pass (controller.work state) m) { place = state }) board.new list.old.items list.new.items) }
{
    if let Work::Captures(Column::Dr) = state.work() {
        note_capture(at, &no_vector(), board, list)?;
    }
    board.along(&[state]);
    Ok(())
}

/// A board at rest goes along a stated path; captures of the data column are noted.
fn along(at: At<'_>, path: &[State], board: &mut Board, list: &mut List) -> Result<(), AllocError>
    requires rests { IsResting board.old }
    requires fits { Fits (members board.old.chips) at.devices.now at.numbers.now }
    ensures { (m : AtRest) → IsAtRest board.old m → OnOk result (Goes at.entry.numbers.now.pins.items
        (events.events_along at.entry.command path.now m) (whole.along path.now m) board.new list.old.items
        list.new.items) }
{
    for state in path {
        pass(at, *state, board, list)?;
    }
    Ok(())
}

/// The registers of a board at rest capture and shift; a capture of the data column is noted.
fn capture_scan(
    at: At<'_>,
    column: Column,
    vector: &Vector,
    board: &mut Board,
    list: &mut List,
) -> Result<(), AllocError>
    requires rests { IsResting board.old }
    requires fits { Fits (members board.old.chips) at.devices.now at.numbers.now }
    ensures { (m : AtRest) → IsAtRest board.old m → OnOk result (Goes at.entry.numbers.now.pins.items
        (events.events_capturing at.entry.command column (bits vector.now) m)
        (whole.shift column (tdis (bits vector.now)) (whole.capture column m)) board.new list.old.items
        list.new.items) }
{
    if let Column::Dr = column {
        note_capture(at, vector, board, list)?;
    }
    board.capture(column);
    board.shift(column, vector);
    Ok(())
}

/// A scan of a board at rest ends, its bits shifted; a capture of the data column is noted.
fn end(
    at: At<'_>,
    column: Column,
    state: State,
    board: &mut Board,
    list: &mut List,
) -> Result<(), AllocError>
    requires rests { IsResting board.old }
    requires fits { Fits (members board.old.chips) at.devices.now at.numbers.now }
    ensures { (m : AtRest) → IsAtRest board.old m → OnOk result (Goes at.entry.numbers.now.pins.items
        (events.events_ending at.entry.command column state m) (meaning.scan_end column state m) board.new
        list.old.items list.new.items) }
{
    if is_at(state, pause(column)) {
        board.stand(state);
        return Ok(());
    }
    board.update(column);
    arrive(at, state, board, list)
}

/// The pause of a column.
fn pause(column: Column) -> State
    ensures { result ≡ controller.pause column }
{
    match column {
        Column::Dr => State::DrPause,
        Column::Ir => State::IrPause,
    }
}

/// Scans a whole vector, from rest to rest, as a play does; captures of the data column are noted.
fn scan(
    at: At<'_>,
    column: Column,
    vector: &Vector,
    state: State,
    board: &mut Board,
    list: &mut List,
) -> Result<(), AllocError>
    requires rests { IsResting board.old }
    requires fits { Fits (members board.old.chips) at.devices.now at.numbers.now }
    ensures { (m : AtRest) → IsAtRest board.old m → OnOk result (Goes at.entry.numbers.now.pins.items
        (events.events_scanning at.entry.command column (bits vector.now) state (whole.settle m))
        (meaning.scan_end column state
        (whole.shift column (tdis (bits vector.now)) (whole.capture column (whole.settle m)))) board.new
        list.old.items list.new.items) }
{
    board.settle();
    capture_scan(at, column, vector, board, list)?;
    end(at, column, state, board, list)
}

/// Runs from a stable state to another, as a play does; captures of the data column are noted.
fn run(
    at: At<'_>,
    first: State,
    last: State,
    board: &mut Board,
    list: &mut List,
) -> Result<(), AllocError>
    requires rests { IsResting board.old }
    requires fits { Fits (members board.old.chips) at.devices.now at.numbers.now }
    ensures { (m : AtRest) → IsAtRest board.old m → OnOk result (Goes at.entry.numbers.now.pins.items
        (events.events_moving at.entry.command first m
        ++ events.events_moving at.entry.command last (meaning.move_unless_there first m))
        (meaning.move_unless_there last (meaning.move_unless_there first m)) board.new list.old.items
        list.new.items) }
{
    go_unless_there(at, first, board, list)?;
    go_unless_there(at, last, board, list)
}

/// Plays a step on a board at rest (asked), as a play does, and notes the captures of the data column behind those
/// listed. Refused where memory runs out.
fn note_step(
    alloc: Global,
    devices: &[PlannedDevice],
    numbers: &PinNumbers,
    step: &Step<'_>,
    board: &mut Board,
    list: &mut List,
) -> Result<(), AllocError>
    requires rests { IsResting board.old }
    requires fits { Fits (members board.old.chips) devices.now numbers.now }
    requires within { IsWithin (kept.step step.now.what) }
    ensures { (m : AtRest) → IsAtRest board.old m → OnOk result (Goes numbers.now.pins.items
        (events.events_of_step step.now.number (kept.step step.now.what) m)
        (meaning.after_step (kept.step step.now.what) m) board.new list.old.items list.new.items) }
{
    let at = At {
        alloc,
        devices,
        numbers,
        command: step.number,
    };
    match step.what {
        Action::Scan {
            column,
            vector,
            end,
        } => scan(at, column, &vector, end, board, list),
        Action::Go(state) => go(at, state, board, list),
        Action::Path(path) => along(at, path, board, list),
        Action::Run {
            run: first,
            end,
            ..
        } => { run(at, first, end, board, list) }
        Action::Trst(_) => {
            drive_trst(step, board);
            Ok(())
        }
    }
}

/// Plays a step on a board at rest (asked).
fn drive_trst(step: &Step<'_>, board: &mut Board)
    requires rests { IsResting board.old }
    requires within { IsWithin (kept.step step.now.what) }
    ensures { (m : AtRest) → IsAtRest board.old m
        → IsAtRest board.new (meaning.after_step (kept.step step.now.what) m) }
{
    let mut failures = Failures::new();
    play_step(step, board, &mut failures);
}

/// Plays steps on a board at rest (asked), whatever fails, until so many captures of the data column, and some (asked),
/// are noted or no step is left. Those of a step stay together. Refused where memory runs out.
fn note_steps(
    alloc: Global,
    devices: &[PlannedDevice],
    numbers: &PinNumbers,
    most: usize,
    steps: &mut Steps<'_>,
    board: &mut Board,
) -> Result<Vec<Capture>, AllocError>
    requires some { 0 < most }
    requires rests { IsResting board.old }
    requires fits { Fits (members board.old.chips) devices.now numbers.now }
    requires within { AllWithin (left steps.old) }
    ensures { (m : AtRest) → IsAtRest board.old m → IfOk result (λ v. GoesOn numbers.now.pins.items (left steps.old) m
        (left steps.new) board.new v.items) }
{
    let mut list = Vec::new(alloc);
    'steps: while list.len() < most {
        let Some(step) = steps.next() else {
            return Ok(list);
        };
        note_step(alloc, devices, numbers, &step, board, &mut list)?;
    }
    Ok(list)
}

/// A program's play on the board of a plan as far as it has gone, to be gone on with.
#[derive(Drop)]
pub struct Captures<'a> {
    devices: &'a [PlannedDevice],
    numbers: PinNumbers,
    steps: Steps<'a>,
    board: Board,
}

/// A program's play on the board of a plan that powers up (asked), before its first capture. Refused without memory.
pub fn start_play<'a>(
    alloc: Global,
    plan: &'a Plan,
    program: &'a Program,
) -> Result<Captures<'a>, AllocError>
    requires { PowersUp plan.now }
    ensures { IfOk result (AreLeft (captures (program_of program.now) (wiring plan.now))
        (all_pins (wiring plan.now).nets)) }
{
    // For the proof alone: what the types keep of a program's steps and of a board's devices.
    let _ = program.len();
    let numbers = number_pins(alloc, &plan.devices, &plan.nets)?;
    let mut board = Board::powered_up(alloc, plan)?;
    let _ = board.devices();
    play_opening(&mut board);
    Ok(Captures {
        devices: &plan.devices,
        numbers,
        steps: program.steps(),
        board,
    })
}

impl<'a> Captures<'a> {
    ghost use Rattle.std.specs.Prelude.{◌<◌, List, IfOk};
    ghost use Rattle.pin_nets.specs.declared.Pin.{Pin as ThePin};
    ghost use Rattle.fault_events.specs.Captures.{AreLeft, Begins, IsUnderWay, Noted};

    /// What is noted at the next captures of a play that `start_play` began (asked), whatever fails: of so many (some,
    /// asked) or a few more, since those of a step stay together; of fewer at the program's end, and of none behind it.
    /// Refused where memory runs out.
    pub fn next_block(&mut self, alloc: Global, most: usize) -> Result<Vec<Capture>, AllocError>
        requires some { 0 < most }
        requires way { IsUnderWay self.old }
        ensures { (cs : List Noted) (pins : List ThePin) → AreLeft cs pins self.old
            → IfOk result (λ v. Begins cs pins self.old v.items self.new) }
    {
        note_steps(
            alloc,
            self.devices,
            &self.numbers,
            most,
            &mut self.steps,
            &mut self.board,
        )
    }
}
