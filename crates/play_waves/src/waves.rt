//! The wave file of a play.

ghost use Rattle.std.specs.Prelude.{◌≡◌, ℕ, true, List, OnOk};
ghost use Rattle.byte_streams.specs.Writes.{WritesAll};
ghost use Rattle.jt_tap.specs.declared.State.TheVariants.{Reset};
ghost use Rattle.jt_tap.specs.Controller.{is_stable};
ghost use Rattle.svf_programs.specs.Legal.{IsFormed};
ghost use Rattle.svf_programs.specs.Periods.{period_in};
ghost use Rattle.svf_programs.specs.Seen as seen;
ghost use Rattle.svf_programs.specs.Sizes.{program_of};
ghost use Rattle.svf_programs.specs.Sound.{IsWithin};
ghost use Rattle.bitbang.specs.StepMessages.{step_messages};
ghost use Rattle.board_model.specs.Chain.{BoardState};
ghost use Rattle.play_model.specs.declared.kind.Kind.{Kind};
ghost use Rattle.play_model.specs.Play.{step_turns, turns, wants_of};
ghost use Rattle.scan_vectors.specs.Held.{bits};
ghost use Rattle.play_direct.specs.Accepting.{Accepts, KeepsPeriodsOf};
ghost use Rattle.play_drawing.specs.Drawing.{after_drawing};
ghost use Rattle.play_drawing.specs.Judging.{draw_judging};
ghost use Rattle.play_drawing.specs.Notes.{no_note};
ghost use Rattle.wave_files.specs.Values as numbers;
ghost use Rattle.play_drawing.specs.Pens.{begun};
ghost use Rattle.play_waves.specs.Stages.{judge_for};
ghost use Rattle.play_waves.specs.Texts.{Draws};
ghost use Rattle.play_drawing.specs.Waves as spec;

use crate::stage::Stage;
use crate::variables::write_variables;
use byte_streams::{Broken, Counted, Sink};
use jt_board::Board;
use jt_tap::State;
use play_direct::play_program;
use play_drawing::{Drawing, draw_judged, draw_opening, draw_step};
use play_model::{Ending, Kind};
use scan_vectors::{Vector, next_wanted};
use svf_programs::{Action, Program, Step};
use tck_cycles::{Source, place_after};
use wave_files::Extras;

/// Writes the wave file of an accepted program, which is lent, as the player of a stage plays it on its board. Where
/// `noted` is set, the file tells of the bits that are wanted, and of those that fail; of devices and pins it tells
/// besides what `extras` says. It takes no memory.
///
/// `Broken` comes exactly where the writer's first failure came in this call.
pub fn write_waves<W: Sink>(
    program: &Program,
    stage: Stage,
    noted: bool,
    extras: Extras,
    out: &mut Counted<W>,
) -> Result<(), Broken>
    requires { out.old.failures ≡ 0 }
    // What is drawn of a program.
    ensures program { WritesAll W.contents out.old out.new (spec.wave_file noted extras (period_in program.now.periods)
        stage.kind (program_of program.now) stage.board) result }
    // Where it is the program of a text that was accepted, with the periods of that, these are the waves of the text.
    ensures text { (text : List ℕ) → Accepts text (program_of program.now) → KeepsPeriodsOf text program.now.periods
        → Draws W.contents noted extras text stage.kind stage.board out.old out.new result }
{
    write_file(program, stage, noted, extras, out)
}

/// Writes the wave file of a program.
fn write_file<W: Sink>(
    program: &Program,
    stage: Stage,
    noted: bool,
    extras: Extras,
    out: &mut Counted<W>,
) -> Result<(), Broken>
    requires { out.old.failures ≡ 0 }
    ensures { WritesAll W.contents out.old out.new (spec.wave_file noted extras (period_in program.now.periods)
        stage.kind (program_of program.now) stage.board) result }
{
    let kind = noting(noted, stage.kind());
    let (judge, mut drawing) = stage.opened(extras);
    let failed = stopped_in(program, judge);
    write_variables(noted, extras, drawing.chain(), out)?;
    drawing.start(noted, out)?;
    draw_program(program, kind, failed, &mut drawing, out)
}

/// The kind of a player, where it is told of the bits that it wants.
fn noting(noted: bool, kind: Kind) -> Option<Kind>
    ensures { result ≡ spec.noting noted kind }
{
    if noted { Some(kind) } else { None }
}

/// The statement in which a play stops, if it does: it is played on the board on which it is judged.
fn stopped_in(program: &Program, judge: Option<Board>) -> Option<usize>
    ensures { (kind : Kind) (b : BoardState) → judge ≡ judge_for kind b
        → result ≡ spec.stopped_in kind (program_of program.now) b }
{
    match judge {
        None => None,
        Some(mut board) => failed_in(play_program(program, &mut board)),
    }
}

/// The statement that fails.
fn failed_in(ending: Ending) -> Option<usize>
    ensures { result ≡ spec.failed_in ending }
{
    match ending {
        Ending::Fail { command, .. } => Some(command),
        _ => None,
    }
}

/// Draws a program, up to and with the statement that fails.
fn draw_program<W: Sink>(
    program: &Program,
    noted: Option<Kind>,
    failed: Option<usize>,
    drawing: &mut Drawing,
    out: &mut Counted<W>,
) -> Result<(), Broken>
    requires { out.old.failures ≡ 0 }
    ensures { WritesAll W.contents out.old out.new (spec.wave noted (period_in program.now.periods) failed
        (turns program.now.steps) drawing.old) result }
{
    draw_opening(drawing, opening_period(program), out)?;
    draw_steps(program, noted, failed, drawing, out)
}

/// The period of TCK in the opening of a program.
fn opening_period(program: &Program) -> u64
    ensures { result ≡ period_in program.now.periods 0 }
{
    let mut periods = program.periods();
    periods.at(0)
}

/// Draws the steps of a program, up to and with that of the statement that fails.
fn draw_steps<W: Sink>(
    program: &Program,
    noted: Option<Kind>,
    failed: Option<usize>,
    drawing: &mut Drawing,
    out: &mut Counted<W>,
) -> Result<(), Broken>
    requires { out.old.failures ≡ 0 }
    ensures { WritesAll W.contents out.old out.new (spec.wave noted (period_in program.now.periods) failed
        (step_turns Reset program.now.steps) drawing.old) result }
{
    // For the proof alone: what is kept of a program's steps.
    let _ = program.len();
    let mut place = State::Reset;
    let mut periods = program.periods();
    for step in program.steps() {
        if !is_played(failed, step.number) {
            return drawing.close(out);
        }
        let period = periods.at(step.number);
        draw_turn(drawing, place, &step, noted, period, out)?;
        place = place_after(place, &step);
    }
    drawing.close(out)
}

/// Draws the number of a step's statement, and the step, from a resting place.
fn draw_turn<W: Sink>(
    drawing: &mut Drawing,
    place: State,
    step: &Step<'_>,
    noted: Option<Kind>,
    period: u64,
    out: &mut Counted<W>,
) -> Result<(), Broken>
    requires none_lost { out.old.failures ≡ 0 }
    requires rests { is_stable place ≡ true }
    requires formed { IsFormed place (seen.step step.now.what) }
    requires within { IsWithin (seen.step step.now.what) }
    ensures writes { WritesAll W.contents out.old out.new
        (spec.draw_turn noted period (spec.turn_at place (seen.numbered step.now)) drawing.old) result }
    ensures pen { OnOk result
        (drawing.new ≡ after_drawing period (step_messages place (seen.step step.now.what)) drawing.old) }
{
    drawing.begin(step.number, out)?;
    draw_messages(drawing, place, step, noted, period, out)
}

/// Draws a step, from a resting place; where the kind of the player is given, with what is told of the bits that the
/// step wants.
fn draw_messages<W: Sink>(
    drawing: &mut Drawing,
    place: State,
    step: &Step<'_>,
    noted: Option<Kind>,
    period: u64,
    out: &mut Counted<W>,
) -> Result<(), Broken>
    requires none_lost { out.old.failures ≡ 0 }
    requires rests { is_stable place ≡ true }
    requires formed { IsFormed place (seen.step step.now.what) }
    requires within { IsWithin (seen.step step.now.what) }
    ensures writes { WritesAll W.contents out.old out.new
        (spec.turn_text noted period (spec.turn_at place (seen.numbered step.now)) drawing.old) result }
    ensures pen { OnOk result
        (drawing.new ≡ after_drawing period (step_messages place (seen.step step.now.what)) drawing.old) }
{
    match noted {
        None => draw_step(drawing, place, step, period, out),
        Some(kind) => draw_noted_step(drawing, place, step, kind, period, out),
    }
}

/// Draws a step, with what is told of the bits that it wants.
fn draw_noted_step<W: Sink>(
    drawing: &mut Drawing,
    place: State,
    step: &Step<'_>,
    kind: Kind,
    period: u64,
    out: &mut Counted<W>,
) -> Result<(), Broken>
    requires none_lost { out.old.failures ≡ 0 }
    requires rests { is_stable place ≡ true }
    requires formed { IsFormed place (seen.step step.now.what) }
    requires within { IsWithin (seen.step step.now.what) }
    ensures writes { WritesAll W.contents out.old out.new (draw_judging kind
        (numbers.first_of_notes drawing.old.board.chips drawing.old.board.nets) period
        (step_messages place (seen.step step.now.what)) (wants_of (seen.step step.now.what)) no_note
        drawing.old) result }
    ensures pen { OnOk result
        (drawing.new ≡ after_drawing period (step_messages place (seen.step step.now.what)) drawing.old) }
{
    match step.what {
        Action::Scan { vector, .. } => {
            draw_scan(drawing, place, step, &vector, kind, period, out)
        }
        _ => draw_step(drawing, place, step, period, out),
    }
}

/// Draws a scan of a vector, with what is told of the bits that it wants.
fn draw_scan<W: Sink>(
    drawing: &mut Drawing,
    place: State,
    step: &Step<'_>,
    vector: &Vector<'_>,
    kind: Kind,
    period: u64,
    out: &mut Counted<W>,
) -> Result<(), Broken>
    requires none_lost { out.old.failures ≡ 0 }
    requires rests { is_stable place ≡ true }
    requires formed { IsFormed place (seen.step step.now.what) }
    requires within { IsWithin (seen.step step.now.what) }
    requires scans { spec.IsScanOf (seen.step step.now.what) (bits vector.now) }
    ensures writes { WritesAll W.contents out.old out.new (draw_judging kind
        (numbers.first_of_notes drawing.old.board.chips drawing.old.board.nets) period
        (step_messages place (seen.step step.now.what)) (wants_of (seen.step step.now.what)) no_note
        drawing.old) result }
    ensures pen { OnOk result
        (drawing.new ≡ after_drawing period (step_messages place (seen.step step.now.what)) drawing.old) }
{
    match next_wanted(vector, 0) {
        None => draw_step(drawing, place, step, period, out),
        Some(_) => {
            let number = drawing.first_of_notes();
            let source = Source::of(place, step);
            draw_judged(drawing, source, vector, kind, number, period, out)
        }
    }
}

/// Whether a statement is one of the play.
fn is_played(failed: Option<usize>, command: usize) -> bool
    ensures { result ≡ spec.is_played failed command }
{
    match failed {
        None => true,
        Some(failed) => command <= failed,
    }
}
