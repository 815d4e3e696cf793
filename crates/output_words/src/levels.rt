//! The words of levels.

ghost use Rattle.std.specs.Prelude.{◌≡◌};
ghost use Rattle.output_words.specs.Levels as spec;

use pin_nets::Level;

/// The word of a level.
pub fn level_word(level: Level) -> &'static [u8]
    ensures { result.now ≡ spec.level_word level }
{
    match level {
        Level::Zero => b"Zero",
        Level::One => b"One",
        Level::Contend => b"Contend",
        Level::Float => b"Float",
    }
}
