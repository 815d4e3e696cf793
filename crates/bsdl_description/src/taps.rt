//! Whether a port is one of the TAP's.
ghost use Rattle.std.specs.Prelude.{◌≡◌, ℕ, List, option_map, option_to_list, bytes_eq};
ghost use Rattle.std.specs.List.{list_any};
ghost use Rattle.bsdl_text.specs.Words.{is_among, upper};
ghost use Rattle.bsdl_description.specs.View.{taps as taps_view};

use crate::description::Taps;
use bsdl_text::{Word, same_name};

/// Whether a port of this name is one of the TAP's.
pub fn names_tap(taps: &Taps<'_>, name: &[u8]) -> bool
    ensures { result ≡ is_among (taps_view taps.now) (upper name.now) }
{
    same_name(name, taps.input.text)
        || same_name(name, taps.output.text)
        || same_name(name, taps.mode.text)
        || same_name(name, taps.clock.text)
        || names_reset(taps.reset, name)
}

fn names_reset(reset: Option<Word<'_>>, name: &[u8]) -> bool
    ensures { result ≡ list_any (bytes_eq (upper name.now))
        (option_to_list (option_map {U = List ℕ} (λ w. upper w.text.now) reset.entry)) }
{
    match reset {
        Some(port) => same_name(name, port.text),
        None => false,
    }
}
