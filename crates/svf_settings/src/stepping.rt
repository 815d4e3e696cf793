//! What a statement makes and sets at the settings there.

ghost use Rattle.std.specs.Prelude.{◌≡◌, ℕ, Bool, List, Option, Some, None, if◌then◌else◌, is_some, map, IfSome};
ghost use Rattle.std.specs.Prelude.{option_map, slice_get, unwrap_or};
ghost use Rattle.svf_parse.specs.View.{said_of};
ghost use Rattle.svf_parse.specs.Judging.{Said};
ghost use Rattle.svf_parse.specs.Judging as says;
ghost use Rattle.svf_programs.specs.Steps as steps;
ghost use Rattle.svf_settings.specs.LookBack as look;
ghost use Rattle.svf_settings.specs.Running as running;
ghost use Rattle.svf_programs.specs.Held.{part_in, step_in};
ghost use Rattle.svf_settings.specs.Held.{IsAlike, StandsIfNamed, settings_in};
ghost use Rattle.svf_settings.specs.Held as held;

use crate::running::Running;
use jt_bits::Bits;
use jt_tap::{Column, State, last_of};
use svf_parse::{Statement, TrstWord, Which};
use svf_programs::{DEFAULT_PERIOD, Kept, KeptPart, len_at, path_at, tdo_at};

/// What a scan gives: the fields that settings and steps keep.
#[derive(Drop, Clone, Copy)]
struct Given<'a> {
    which: Which,
    len: usize,
    tdi: &'a Option<Bits>,
    tdo: &'a Option<Bits>,
    mask: &'a Option<Bits>,
}

impl Running {
    /// Goes behind a statement, which stands at this place of the statements: the step that it makes. It does so by any
    /// list by which the settings mean the same, if the statement stands there or nothing names it.
    pub(crate) fn pass(
        &mut self,
        statements: &[Statement],
        index: u32,
        statement: &Statement,
    ) -> Option<Kept>
        ensures step { (all : List Said) → IsAlike all (map said_of statements.now) self.old
            → StandsIfNamed all (settings_in all self.old) index (said_of statement.now)
            → option_map (step_in all) result ≡ look.step (settings_in all self.old) (said_of statement.now) }
        ensures next { (all : List Said) → IsAlike all (map said_of statements.now) self.old
            → StandsIfNamed all (settings_in all self.old) index (said_of statement.now)
            → settings_in all self.new ≡ running.next (settings_in all self.old) (said_of statement.now) }
    {
        match statement {
            Statement::EndDr(state) => {
                self.dr_end = *state;
                None
            }
            Statement::EndIr(state) => {
                self.ir_end = *state;
                None
            }
            Statement::Frequency(period) => {
                self.period = period.unwrap_or(DEFAULT_PERIOD);
                None
            }
            Statement::Scan {
                which,
                len,
                tdi,
                tdo,
                mask,
                ..
            } => {
                let given = Given {
                    which: *which,
                    len: *len,
                    tdi,
                    tdo,
                    mask,
                };
                let part = self.in_force(statements, index, given);
                let made = self.scan_step(*which, part);
                self.put_scan(*which, part);
                made
            }
            Statement::RunTest {
                run,
                count,
                min_ps,
                end,
                ..
            } => {
                let cycles = self.cycles(*count, *min_ps);
                let run_end = self.ends_in(*run, *end);
                self.run_state = self.runs_in(*run);
                self.run_end = run_end;
                Some(Kept::Run {
                    run: self.run_state,
                    cycles,
                    end: run_end,
                })
            }
            Statement::States(states) => path_step(index, states.as_slice()),
            Statement::Trst(word) => {
                self.trst = Some(*word);
                Some(Kept::Trst(*word))
            }
        }
    }

    /// The step of a scan, if it scans a register.
    fn scan_step(&self, which: Which, body: KeptPart) -> Option<Kept>
        ensures { (all : List Said) (n : ℕ) (tdi tdo mask smask : Option (List Bool))
            → part_in all body ≡ look.in_force n tdi tdo mask (look.last_of_command which (settings_in all self.now))
            → option_map (step_in all) result
            ≡ look.step (settings_in all self.now) (says.scan which n tdi tdo mask smask) }
    {
        match which {
            Which::Sdr => Some(Kept::Scan {
                column: Column::Dr,
                header: self.hdr,
                body,
                trailer: self.tdr,
                end: self.dr_end,
            }),
            Which::Sir => Some(Kept::Scan {
                column: Column::Ir,
                header: self.hir,
                body,
                trailer: self.tir,
                end: self.ir_end,
            }),
            Which::Hdr => None,
            Which::Hir => None,
            Which::Tdr => None,
            Which::Tir => None,
        }
    }

    /// The fields in force at a scan, which stands at this place of the statements: the last part of its command, where
    /// it is the same as that.
    fn in_force(&self, statements: &[Statement], index: u32, given: Given<'_>) -> KeptPart
        ensures { (all : List Said) → IsAlike all (map said_of statements.now) self.now → (smask : Option (List Bool))
            → let g = given.entry in
            StandsIfNamed all (settings_in all self.now) index
            (says.scan g.which g.len g.tdi.now g.tdo.now g.mask.now smask)
            → part_in all result ≡ look.in_force g.len g.tdi.now g.tdo.now g.mask.now
            (look.last_of_command g.which (settings_in all self.now)) }
    {
        match self.taken_over(statements, given) {
            Some(part) => part,
            None => self.written(statements, index, given),
        }
    }

    /// The last part of a scan command, if a scan is the same: it gives no TDI, TDO or MASK, and the part is as long
    /// and wants nothing out.
    fn taken_over(&self, statements: &[Statement], given: Given<'_>) -> Option<KeptPart>
        ensures over { let g = given.entry in
            is_some result
            ≡ held.takes_over g.len g.tdi.now g.tdo.now g.mask.now
            (look.last_of_command g.which (settings_in (map said_of statements.now) self.now)) }
        ensures last { (all : List Said) → IfSome result
            (λ part. Some (part_in all part) ≡ look.last_of_command given.entry.which (settings_in all self.now)) }
    {
        if given.tdi.is_some() || given.tdo.is_some() || given.mask.is_some() {
            return None;
        }
        match self.last(given.which) {
            Some(part) if is_like(statements, part, given.len) => Some(part),
            _ => None,
        }
    }

    /// The fields of a scan, which stands at this place of the statements, with those that it takes over.
    fn written(&self, statements: &[Statement], index: u32, given: Given<'_>) -> KeptPart
        ensures { (all : List Said) → IsAlike all (map said_of statements.now) self.now
            → (tdo smask : Option (List Bool))
            → let g = given.entry in
            slice_get all index ≡ Some (says.scan g.which g.len g.tdi.now tdo g.mask.now smask)
            → part_in all result
            ≡ look.in_force g.len g.tdi.now tdo g.mask.now (look.last_of_command g.which (settings_in all self.now)) }
    {
        let earlier = self.last_as_long(statements, given.which, given.len);
        KeptPart {
            at: index,
            tdi: written_or(index, given.tdi, earlier.map(|part| part.tdi)),
            mask: written_or(index, given.mask, earlier.map(|part| part.mask)),
        }
    }

    /// Whether settings and steps may name a statement: a scan for its fields, unless it is the same as the last one of
    /// its command, and a path of several states.
    pub(crate) fn is_named(&self, statements: &[Statement], statement: &Statement) -> bool
        ensures { result ≡ held.is_named (settings_in (map said_of statements.now) self.now) (said_of statement.now) }
    {
        match statement {
            Statement::Scan {
                which,
                len,
                tdi,
                tdo,
                mask,
                ..
            } => {
                let given = Given {
                    which: *which,
                    len: *len,
                    tdi,
                    tdo,
                    mask,
                };
                self.taken_over(statements, given).is_none()
            }
            Statement::States(states) => states.len() > 1,
            _ => false,
        }
    }

    /// Makes this the last part of a scan command.
    fn put_scan(&mut self, which: Which, part: KeptPart)
        ensures { (all : List Said)
            → settings_in all self.new ≡ running.with_scan which (part_in all part) (settings_in all self.old) }
    {
        match which {
            Which::Hdr => self.hdr = Some(part),
            Which::Hir => self.hir = Some(part),
            Which::Tdr => self.tdr = Some(part),
            Which::Tir => self.tir = Some(part),
            Which::Sdr => self.sdr = Some(part),
            Which::Sir => self.sir = Some(part),
        }
    }
}

/// This place where the field is written there, and else the earlier one, if there is one.
fn written_or(index: u32, field: &Option<Bits>, earlier: Option<u32>) -> u32
    ensures { result ≡ (if is_some field.now then index else unwrap_or earlier index) }
{
    if field.is_some() {
        index
    } else {
        earlier.unwrap_or(index)
    }
}

/// Whether a part is as long, and wants nothing out.
fn is_like(statements: &[Statement], part: KeptPart, len: usize) -> bool
    ensures { result ≡ held.is_like len (Some (part_in (map said_of statements.now) part)) }
{
    len_at(statements, part.at) == len && tdo_at(statements, part.at).is_none()
}

/// The step of a STATE statement, which stands at this place of the statements.
fn path_step(index: u32, path: &[State]) -> Option<Kept>
    ensures { (all : List Said) (st : look.Settings) → StandsIfNamed all st index (says.states path.now)
        → option_map (step_in all) result ≡ look.path_step path.now }
{
    match path {
        [] => None,
        [state] => Some(Kept::Go(*state)),
        _ => Some(Kept::Path(index)),
    }
}

/// Where the program rests behind a statement that makes this step, or none.
pub(crate) fn place_behind(place: State, statements: &[Statement], made: Option<Kept>) -> State
    ensures { result ≡ look.place_after_some place (option_map (step_in (map said_of statements.now)) made) }
{
    match made {
        None => place,
        Some(what) => place_after(place, statements, what),
    }
}

/// Where the program rests behind a step.
fn place_after(place: State, statements: &[Statement], step: Kept) -> State
    ensures { result ≡ steps.place_after place (step_in (map said_of statements.now) step) }
{
    match step {
        Kept::Scan { end, .. } => end,
        Kept::Go(state) => state,
        Kept::Path(at) => last_of(place, path_at(statements, at)),
        Kept::Run { end, .. } => end,
        Kept::Trst(TrstWord::On) => State::Reset,
        Kept::Trst(_) => place,
    }
}
