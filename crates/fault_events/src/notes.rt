//! What is noted of pins at a capture.
use board_faults::Driven;
use scan_vectors::Part;

/// A wanted bit of a whole vector: its place there from TDO, and its part with its place in that, both from 0.
#[derive(Drop, Clone, Copy)]
pub struct Spot {
    pub index: usize,
    pub part: Part,
    pub bit: usize,
}

/// What is noted of some pins at a capture of the data column: what they drive together before it, the least wanted bit
/// that is taken from one of them, and whether a bit that stays is: one that the vector does not push out.
#[derive(Drop, Clone, Copy)]
pub struct Note {
    pub made: Driven,
    pub first: Option<Spot>,
    pub stays: bool,
}
