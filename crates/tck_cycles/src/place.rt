//! Where a step comes to rest.

ghost use Rattle.std.specs.Prelude.{◌≡◌};
ghost use Rattle.svf_programs.specs.Seen as seen;
ghost use Rattle.svf_programs.specs.Steps as steps;

use jt_tap::{State, last_of};
use svf_programs::{Action, Step, TrstWord};

/// Where a step comes to rest that begins at this place.
pub fn place_after(place: State, step: &Step) -> State
    ensures { result ≡ steps.place_after place (seen.step step.now.what) }
{
    match step.what {
        Action::Scan { end, .. } => end,
        Action::Go(state) => state,
        Action::Path(path) => last_of(place, path),
        Action::Run { end, .. } => end,
        Action::Trst(TrstWord::On) => State::Reset,
        Action::Trst(_) => place,
    }
}
