//! What a RUNTEST comes to at the settings there: the state in which it runs, the one in which it ends, and its cycles.
ghost use Rattle.std.specs.Prelude.{◌≡◌};
ghost use Rattle.std.specs.Int.{div_ceil};
ghost use Rattle.svf_settings.specs.LookBack as look;

use crate::running::Running;
use jt_tap::State;

impl Running {
    /// The state in which a RUNTEST runs.
    pub(crate) fn runs_in(&self, run: Option<State>) -> State
        ensures { result ≡ look.runs_in run self.now.run_state }
    {
        run.unwrap_or(self.run_state)
    }

    /// The state in which it ends.
    pub(crate) fn ends_in(&self, run: Option<State>, end: Option<State>) -> State
        ensures { result ≡ look.ends_in run end self.now.run_end }
    {
        end.unwrap_or(run.unwrap_or(self.run_end))
    }

    /// Its cycles: at least its count, and as many as its least time, in picoseconds, takes.
    pub(crate) fn cycles(&self, count: Option<u32>, min_ps: Option<u64>) -> u64
        ensures { result ≡ look.cycle_count self.now.period count min_ps }
    {
        let least = rounded_up(min_ps.unwrap_or(0), self.period);
        u64::from(count.unwrap_or(0)).max(least)
    }
}

/// A time in periods, rounded up. A period of 0 stands in no text.
fn rounded_up(time: u64, period: u64) -> u64
    ensures { result ≡ div_ceil time period }
{
    if period == 0 {
        time.min(1)
    } else {
        time.div_ceil(period)
    }
}
