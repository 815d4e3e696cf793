//! Which description a refusal is of.
ghost use Rattle.std.specs.Prelude.{◌≡◌};
ghost use Rattle.board_file.specs.Refusals as spec;

use board_tables::BoardFault;

/// Why a description is refused, and which: the one whose name has this place among those that the board file asks for,
/// each once, counted from 0.
#[derive(Debug, Drop)]
pub struct Refused<F> {
    pub place: usize,
    pub fault: F,
}

/// A refusal as it is told, and the place of the description that is refused, where one is.
pub fn unplaced<F>(fault: BoardFault<Refused<F>>) -> (BoardFault<F>, Option<usize>)
    ensures fault { result.0 ≡ spec.unplaced fault }
    ensures place { result.1 ≡ spec.place_in fault }
{
    match fault {
        BoardFault::Bsdl(Refused { place, fault }) => (BoardFault::Bsdl(fault), Some(place)),
        BoardFault::BadToml => (BoardFault::BadToml, None),
        BoardFault::BadField(key) => (BoardFault::BadField(key), None),
        BoardFault::UnknownFile(name) => (BoardFault::UnknownFile(name), None),
        BoardFault::UnknownPin(text) => (BoardFault::UnknownPin(text), None),
        BoardFault::PinTwice(text) => (BoardFault::PinTwice(text), None),
        BoardFault::TooLarge => (BoardFault::TooLarge, None),
        BoardFault::NoMemory => (BoardFault::NoMemory, None),
        BoardFault::CoreLoop(target) => (BoardFault::CoreLoop(target), None),
    }
}
