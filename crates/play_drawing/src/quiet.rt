//! Messages that leave every net as it is.

ghost use Rattle.std.specs.Prelude.{◌≡◌};
ghost use Rattle.std.specs.List.{list_all};
ghost use Rattle.jt_tap.specs.Controller.{work};
ghost use Rattle.play_drawing.specs.Quiet as spec;

use bitbang_protocol::Message;
use board_chain::Chain;
use jt_tap::Work;

/// Whether a message leaves the level of every net: only a falling edge on which a device updates or resets, and the
/// reset lines, may change one.
pub(crate) fn keeps_levels(message: Message, chain: &Chain) -> bool
    ensures { result ≡ spec.keeps_levels message chain.now.chips }
{
    match message {
        Message::Write { tck: true, .. } => true,
        Message::Write { tck: false, .. } => all_keep_drives(chain),
        _ => false,
    }
}

/// Whether no device updates or resets on a falling edge.
fn all_keep_drives(chain: &Chain) -> bool
    ensures { result ≡ list_all (λ c. spec.keeps_drives (work c.state)) chain.now.chips }
{
    for i in 0..chain.devices() {
        if !keeps_drives(chain.chip(i).state().work()) {
            return false;
        }
    }
    true
}

/// Whether a falling edge in a state of this work changes nothing that is driven.
fn keeps_drives(work: Work) -> bool
    ensures { result ≡ spec.keeps_drives work }
{
    !matches!(work, Work::Updates(_) | Work::Resets)
}
