//! Why a statement is refused at the settings there.

ghost use Rattle.std.specs.Prelude.{◌≡◌, ◌+◌, ◌*◌, ◌==◌, ◌&&◌, Bool, List, Option, Some, None, map, nat_lt};
ghost use Rattle.std.specs.Prelude.{option_map, if◌then◌else◌};
ghost use Rattle.std.specs.List.{list_all};
ghost use Rattle.svf_parse.specs.View.{said_of};
ghost use Rattle.svf_parse.specs.Judging.{Said};
ghost use Rattle.svf_parse.specs.Judging as says;
ghost use Rattle.svf_programs.specs.Legal.{is_reset};
ghost use Rattle.svf_programs.specs.Sound.{vector_limit};
ghost use Rattle.svf_settings.specs.LookBack as look;
ghost use Rattle.svf_settings.specs.Refusals as spec;
ghost use Rattle.svf_programs.specs.Held.{parts_in};
ghost use Rattle.svf_settings.specs.Held.{settings_in};

use crate::running::Running;
use jt_bits::Bits;
use jt_limits::LIMITS;
use jt_tap::{State, last_of};
use svf_parse::{Code, Statement, TrstWord, Which};
use svf_programs::{KeptPart, len_at, tdi_at};

/// A whole vector has at most so many bits.
const VECTOR_LIMIT: usize = LIMITS.vector_bits;

/// A run has at most so many cycles.
const CYCLE_LIMIT: u64 = LIMITS.cycles;

impl Running {
    /// The refusal of a statement here, where the program rests at this place: the one with the lowest number among
    /// its own.
    pub(crate) fn refusal(
        &self,
        place: State,
        statements: &[Statement],
        statement: &Statement,
    ) -> Option<Code>
        ensures { result
            ≡ spec.refusal_at (settings_in (map said_of statements.now) self.now) place (said_of statement.now) }
    {
        match statement {
            Statement::EndDr(state) => end_refusal(*state),
            Statement::EndIr(state) => end_refusal(*state),
            Statement::Frequency(_) => None,
            Statement::Scan {
                which,
                len,
                tdi,
                ..
            } => self.scan_refusal(statements, *which, *len, tdi),
            Statement::RunTest {
                run,
                count,
                min_ps,
                max_ps,
                end,
            } => self.run_refusal(*run, *count, *min_ps, *max_ps, *end),
            Statement::States(states) => self.path_refusal(place, states.as_slice()),
            Statement::Trst(word) => self.trst_refusal(*word),
        }
    }

    /// Whether TRST is held active.
    fn is_held(&self) -> bool
        ensures { result ≡ spec.is_held self.now.trst }
    {
        matches!(self.trst, Some(TrstWord::On))
    }

    fn scan_refusal(
        &self,
        statements: &[Statement],
        which: Which,
        len: usize,
        tdi: &Option<Bits>,
    ) -> Option<Code>
        ensures { (place : State) (tdo mask smask : Option (List Bool))
            → result
            ≡ spec.refusal_at (settings_in (map said_of statements.now) self.now) place
            (says.scan which len tdi.now tdo mask smask) }
    {
        if self.misses_tdi(statements, which, len, tdi) {
            return Some(Code::MissingTdi);
        }
        match which {
            Which::Sdr => self.whole_refusal(statements, self.hdr, len, self.tdr),
            Which::Sir => self.whole_refusal(statements, self.hir, len, self.tir),
            _ => None,
        }
    }

    /// Whether a scan of some bits has no TDI, and takes none over.
    fn misses_tdi(
        &self,
        statements: &[Statement],
        which: Which,
        len: usize,
        tdi: &Option<Bits>,
    ) -> bool
        ensures { (tdo mask smask : Option (List Bool))
            → result
            ≡ spec.misses_tdi (settings_in (map said_of statements.now) self.now)
            (says.scan which len tdi.now tdo mask smask) }
    {
        len != 0 && tdi.is_none() && self.tdi_before(statements, which, len).is_none()
    }

    /// The TDI that a scan takes over.
    fn tdi_before<'a>(
        &self,
        statements: &'a [Statement],
        which: Which,
        len: usize,
    ) -> Option<&'a Bits>
        ensures { option_map {U = List Bool} (λ b. b.now) result
            ≡ look.field_or (λ f. f.tdi) len None
            (look.last_of_command which (settings_in (map said_of statements.now) self.now)) }
    {
        let part = self.last_as_long(statements, which, len)?;
        tdi_at(statements, part.tdi)
    }

    /// The refusal of a scan of a register, which has a TDI if it has bits.
    fn whole_refusal(
        &self,
        statements: &[Statement],
        header: Option<KeptPart>,
        len: usize,
        trailer: Option<KeptPart>,
    ) -> Option<Code>
        ensures { let all = map said_of statements.now in
            let whole = spec.len_of (parts_in all header) + len + spec.len_of (parts_in all trailer) in
            result ≡ (if spec.is_held self.now.trst then Some Code.TrstHeld else if len == 0 then Some Code.EmptyScan
            else if nat_lt vector_limit whole then Some Code.TooLarge else None) }
    {
        let whole = len_of(statements, header)
            .saturating_add(len)
            .saturating_add(len_of(statements, trailer));
        if self.is_held() {
            Some(Code::TrstHeld)
        } else if len == 0 {
            Some(Code::EmptyScan)
        } else if whole > VECTOR_LIMIT {
            Some(Code::TooLarge)
        } else {
            None
        }
    }

    fn run_refusal(
        &self,
        run: Option<State>,
        count: Option<u32>,
        min_ps: Option<u64>,
        max_ps: Option<u64>,
        end: Option<State>,
    ) -> Option<Code>
        ensures { (all : List Said) (place : State)
            → result ≡ spec.refusal_at (settings_in all self.now) place (says.run_test run count min_ps max_ps end) }
    {
        let run_state = self.runs_in(run);
        let run_end = self.ends_in(run, end);
        let cycles = self.cycles(count, min_ps);
        if !(run_state.is_stable() && run_end.is_stable()) {
            Some(Code::BadState)
        } else if self.is_held() && !(is_reset_state(run_state) && is_reset_state(run_end)) {
            Some(Code::TrstHeld)
        } else if is_slower(cycles, self.period, max_ps) {
            Some(Code::TooSlow)
        } else if cycles > CYCLE_LIMIT {
            Some(Code::TooLarge)
        } else {
            None
        }
    }

    fn path_refusal(&self, place: State, path: &[State]) -> Option<Code>
        ensures { (all : List Said) → result ≡ spec.refusal_at (settings_in all self.now) place (says.states path.now) }
    {
        if !last_of(place, path).is_stable() {
            Some(Code::BadState)
        } else if path.len() > 1 && jt_tap::check(place, path).is_err() {
            Some(Code::BadPath)
        } else if self.is_held() && !are_reset(path) {
            Some(Code::TrstHeld)
        } else {
            None
        }
    }

    fn trst_refusal(&self, word: TrstWord) -> Option<Code>
        ensures { (all : List Said) (place : State)
            → result ≡ spec.refusal_at (settings_in all self.now) place (says.trst word) }
    {
        match (self.trst, word) {
            (Some(TrstWord::On), TrstWord::Absent) => Some(Code::TrstHeld),
            (Some(TrstWord::Absent), TrstWord::On | TrstWord::Off | TrstWord::Z) => {
                Some(Code::TrstAbsent)
            }
            _ => None,
        }
    }
}

/// The refusal of an end state.
fn end_refusal(state: State) -> Option<Code>
    ensures dr { (st : look.Settings) (place : State) → result ≡ spec.refusal_at st place (says.end_dr state) }
    ensures ir { (st : look.Settings) (place : State) → result ≡ spec.refusal_at st place (says.end_ir state) }
{
    if state.is_stable() {
        None
    } else {
        Some(Code::BadState)
    }
}

/// How many bits a header or trailer has.
fn len_of(statements: &[Statement], part: Option<KeptPart>) -> usize
    ensures { result ≡ spec.len_of (parts_in (map said_of statements.now) part) }
{
    match part {
        Some(part) => len_at(statements, part.at),
        None => 0,
    }
}

/// Whether so many periods take longer than a time.
fn is_slower(cycles: u64, period: u64, most: Option<u64>) -> bool
    ensures { result ≡ spec.is_slower (cycles * period) most }
{
    match most {
        None => false,
        Some(most) => match cycles.checked_mul(period) {
            Some(time) => time > most,
            None => true,
        },
    }
}

fn is_reset_state(state: State) -> bool
    ensures { result ≡ is_reset state }
{
    state == State::Reset
}

/// Whether a path enters RESET alone.
fn are_reset(path: &[State]) -> bool
    ensures { result ≡ list_all is_reset path.now }
{
    path.iter().all(|state| is_reset_state(*state))
}
