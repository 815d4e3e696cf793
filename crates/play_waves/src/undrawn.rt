//! Waves that are not drawn.

ghost use Rattle.std.specs.Prelude.{◌≡◌};
ghost use Rattle.play_waves.specs.Texts as spec;

use output_words::Status;

/// Why the waves of a program were not drawn, or not all of them.
#[derive(Debug, Clone, Copy, PartialEq, Eq)]
pub enum Undrawn {
    /// Memory ran out: nothing was written.
    NoMemory,
    /// A write was lost: a front part was written.
    Broken,
}

/// The exit status of a play that ended with this one, and whose waves were then drawn so: its own; 3 where a write was
/// lost; 4 where memory ran out.
pub fn status_behind(status: u8, drawn: Result<(), Undrawn>) -> u8
    ensures { result ≡ spec.status_behind status drawn }
{
    match drawn {
        Ok(()) => status,
        Err(Undrawn::Broken) => Status::Lost.number(),
        Err(Undrawn::NoMemory) => Status::NoMemory.number(),
    }
}
