//! The player of a program.

ghost use Rattle.std.specs.Prelude.{◌≡◌, ◌+◌, ◌-◌, ◌^◌, ◌↔◌, ◌++◌, ◌≤◌, IsTrue, IsOk, IfOk, length, min, take, drop};
ghost use Rattle.svf_programs.specs.Sizes.{program_of};
ghost use Rattle.scan_vectors.specs.Failures.{found};
ghost use Rattle.play_model.specs.declared.kind.Kind.TheVariants.{Stops, PlaysOn};
ghost use Rattle.play_model.specs.Streams as stream;
ghost use Rattle.play_model.specs.Streams.{new_stream, hear_bytes, answers_taken, bytes_to_send};
ghost use Rattle.player.specs.Each.{hear_each};
ghost use Rattle.player.specs.Window.{window};

use crate::findings::Findings;
use crate::hearing::hear;
use crate::pieces::fill;
use crate::progress::{Phase, Progress};
use crate::shown::Shown;
use crate::telling;
use play_model::{Ending, Kind};
use scan_vectors::Failures;
use std::alloc::Global;
use std::marker::Model;
use svf_programs::Program;

/// The player of one program: a pure machine that gives out the bytes of the play and takes the answers to them. It
/// judges each answer as it comes and keeps none; up to 256 may be owed within one step. One kind stops after the first
/// step that fails, the other plays its program to the end.
///
/// Contracts see it as the program, its kind, how many bytes were given out, how many answers were taken, the wanted
/// bits that differed, and the byte that was no answer, if one came (`StreamState`); these determine what it may send
/// next, how many answers are owed, and how the play has ended. No call takes memory.
#[derive(Debug, Drop)]
pub struct Player {
    program: Program,
    progress: Progress,
    kept: Findings,
    /// What was shown ahead of where it stands.
    shown: Option<Shown>,
}

impl Model for Player {
    ghost use Rattle.play_model.specs.Streams.{StreamState};

    ghost Value = { StreamState };

    ghost use Rattle.std.specs.Prelude.{IfSome};
    ghost use Rattle.svf_programs.specs.Sizes.{program_of};
    ghost use Rattle.player.specs.Findings.{IsKeptOf, keeping};
    ghost use Rattle.player.specs.Progress.{IsProgressOf, state_of};
    ghost use Rattle.player.specs.Shown.{IsShown};

    ghost view = { λ p. keeping p.kept (state_of (program_of p.program) p.progress) };

    ghost invariant = { λ p. record {
      stands : IsProgressOf p.program.steps p.progress;
      keeps : IsKeptOf (state_of (program_of p.program) p.progress) p.kept;
      shown : IfSome p.shown (IsShown (keeping p.kept (state_of (program_of p.program) p.progress)));
    } };
}

impl Player {
    /// A fresh player of a program, which stops after the first step that fails. It takes no memory, and always answers
    /// `Ok`.
    pub fn new(_alloc: Global, program: Program) -> Result<Player, Program>
        ensures made { IsOk result }
        ensures fresh { IfOk result (λ player. player ≡ new_stream Stops (program_of program)) }
    {
        Ok(Player::of(Kind::Stops, program))
    }

    /// A fresh player of a program, which plays it to the end, whatever fails. It takes no memory.
    pub fn new_all(program: Program) -> Player
        ensures { result ≡ new_stream PlaysOn (program_of program) }
    {
        Player::of(Kind::PlaysOn, program)
    }

    /// A fresh player of this kind.
    fn of(kind: Kind, program: Program) -> Player
        ensures { result ≡ new_stream kind (program_of program) }
    {
        // For the proof alone: what the program's type keeps of its steps.
        let _ = program.len();
        Player {
            program,
            progress: Progress::opening(),
            kept: Findings::new(kind),
            shown: None,
        }
    }

    /// Whether it stops after the first step that fails, or plays its program to the end.
    pub fn kind(&self) -> Kind
        ensures { result ≡ self.now.kind }
    {
        self.kept.kind()
    }

    /// Fills the buffer with the next bytes that may be sent: as many as fit and as the owed answers allow. Answers
    /// how many they are.
    pub fn next_bytes(&mut self, buffer: &mut [u8]) -> usize
        ensures count { result ≡ min (length buffer.old) (length (bytes_to_send window self.old)) }
        ensures bytes { buffer.new ≡ take result (bytes_to_send window self.old) ++ drop result buffer.old }
        ensures player { self.new ≡ record self.old { given = self.old.given + result } }
    {
        if self.progress.bad.is_some() {
            return 0;
        }
        let (progress, count) = fill(&self.program, self.progress, buffer);
        self.progress = progress;
        self.shown = None;
        count
    }

    /// Fills the buffer as `next_bytes` does, and gives nothing out: a link shows its bytes to a writer first, and
    /// gives out those that were taken.
    pub fn show_bytes(&self, buffer: &mut [u8]) -> usize
        ensures count { result ≡ min (length buffer.old) (length (bytes_to_send window self.now)) }
        ensures bytes { buffer.new ≡ take result (bytes_to_send window self.now) ++ drop result buffer.old }
    {
        if self.progress.bad.is_none() {
            let (_, count) = fill(&self.program, self.progress, buffer);
            return count;
        }
        0
    }

    /// Fills the buffer as `show_bytes` does, and keeps where the player stands once these bytes are given out: where a
    /// writer takes them all, `give_out` does not make them once more.
    pub fn show_ahead(&mut self, buffer: &mut [u8]) -> usize
        ensures count { result ≡ min (length buffer.old) (length (bytes_to_send window self.old)) }
        ensures bytes { buffer.new ≡ take result (bytes_to_send window self.old) ++ drop result buffer.old }
        ensures player { self.new ≡ self.old }
    {
        if self.progress.bad.is_none() {
            let (progress, count) = fill(&self.program, self.progress, buffer);
            self.shown = Some(Shown { count, progress });
            return count;
        }
        0
    }

    /// Gives out the next bytes that may be sent, as many as a writer has taken (asked: no more than may be sent).
    /// Where they are not all that was shown ahead, they are written into `taken` once more.
    pub fn give_out(&mut self, taken: &mut [u8])
        requires { length taken.old ≤ length (bytes_to_send window self.old) }
        ensures { self.new ≡ record self.old { given = self.old.given + length taken.old } }
    {
        if let Some(shown) = self.shown {
            if shown.count == taken.len() {
                self.progress = shown.progress;
                self.shown = None;
                return;
            }
        }
        self.next_bytes(taken);
    }

    /// How many answers are owed: those to the `R`s that were given out, without the answers taken; none once the play
    /// has ended.
    pub fn owed(&self) -> usize
        ensures { result ≡ stream.owed window self.now }
    {
        let is_bad = self.progress.bad.is_some();
        if is_bad {
            return 0;
        }
        self.progress.owed
    }

    /// Takes answers, the bytes that came back for the `R`s that were given out: as many as are owed, up to and with
    /// the first that is neither `0` nor `1`, which ends the play. Answers how many were taken.
    pub fn answers(&mut self, bytes: &[u8]) -> usize
        ensures count { result ≡ length (answers_taken window self.old bytes.now) }
        ensures player { self.new ≡ hear_bytes (answers_taken window self.old bytes.now) self.old }
    {
        let (progress, count) = hear(&self.program, self.progress, &mut self.kept, bytes);
        self.progress = progress;
        self.shown = None;
        count
    }

    /// Takes these answers one after another, as `answers` takes each of them alone: those that are not owed are passed
    /// over.
    pub fn answers_each(&mut self, bytes: &[u8])
        ensures { self.new ≡ hear_each bytes.now self.old }
    {
        let (progress, _) = hear(&self.program, self.progress, &mut self.kept, bytes);
        self.progress = progress;
        self.shown = None;
    }

    /// How the play ended: set once `Q` was given out, or after a bad answer.
    pub fn ended(&self) -> Option<Ending>
        ensures { result ≡ stream.ending_of_stream window self.now }
    {
        telling::ended(&self.program, self.progress, &self.kept)
    }

    /// The command in work: 0 until the opening is given out, then the statement of the first step not yet sent and
    /// answered, and once `Q` alone is left, after a failing step too, the count of statements plus 1 (or the largest
    /// number, where that is more). A step that sends nothing is never in work.
    pub fn working(&self) -> usize
        ensures { result ≡ min (stream.working self.now) (2 ^ 64 - 1) }
    {
        telling::working(&self.program, self.progress)
    }

    /// The wanted bits that did not come out so far, by command and then by place in the whole vector: the first 256 of
    /// them, and how many they are. A player that stops keeps the first alone.
    pub fn failures(&self) -> &Failures
        ensures { found result.now ≡ self.now.found }
    {
        self.kept.failures()
    }

    /// The same, of a player that is needed no more.
    pub fn into_failures(self) -> Failures
        ensures { found result ≡ self.found }
    {
        let Player { kept, .. } = self;
        kept.into_failures()
    }

    /// Whether no byte was given out and no answer taken yet.
    pub fn is_fresh(&self) -> bool
        ensures { IsTrue result ↔ (self.now ≡ new_stream self.now.kind self.now.program) }
    {
        matches!(self.progress.phase, Phase::Opening(0))
    }

    /// The program that is played.
    pub fn program(&self) -> &Program
        ensures { program_of result.now ≡ self.now.program }
    {
        &self.program
    }
}
