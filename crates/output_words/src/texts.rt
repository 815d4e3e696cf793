//! Text that grows.

ghost use Rattle.std.specs.Prelude.{◌≡◌, ◌++◌, OnOk, flat_map};

use std::alloc::AllocError;

/// Puts pieces behind a text. Refuses for want of memory alone.
#[tactic(auto, using(crate::proofs::TextLaws::flat_map_more))]
pub fn put(text: &mut Vec<u8>, pieces: &[&[u8]]) -> Result<(), AllocError>
    ensures { OnOk result (text.new.items ≡ text.old.items ++ flat_map (λ piece. piece.now) pieces.now) }
{
    for piece in pieces {
        text.extend_from_slice(piece)?;
    }
    Ok(())
}
