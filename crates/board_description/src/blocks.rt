//! Opcodes with an X, up to 64 at a time: which of them take another opcode is a word with a bit for each.
ghost use Rattle.std.specs.Prelude.{◌≡◌, ◌≢◌, ◌<◌, ◌++◌, ◌∷◌, [], ℕ, length, not, slice_get, IfOk, OnOk, if◌then◌else◌};
ghost use Rattle.jt_bits.specs.Packed.{has_bit};
ghost use Rattle.jt_bits.specs.Words.{IsFirst};
ghost use Rattle.board_description.specs.Blocks.{column_bit, joined, pattern_at, x_taking};
ghost use Rattle.board_description.specs.Covered as spec;

use std::alloc::{AllocError, Global};
use std::marker::Model;

/// How many opcodes a block has room for.
const ROOM: usize = 64;

/// A bit of each opcode of a block: bit `k` of both words is of the `k`-th.
#[derive(Clone, Copy)]
struct Column {
    /// It is X.
    x: u64,
    /// It is 1.
    one: u64,
}

/// It is 0 in each opcode.
const ZEROS: Column = Column { x: 0, one: 0 };

impl Column {
    /// Which of the opcodes take this bit.
    fn taking(self, bit: Option<bool>) -> u64
        ensures { (k : ℕ) → k < 64 → has_bit result k ≡ spec.takes_bit (column_bit self k) bit }
    {
        match bit {
            None => self.x,
            Some(true) => self.x | self.one,
            Some(false) => self.x | invert(self.one),
        }
    }

    /// The same with another bit of the `k`-th opcode.
    fn with(self, k: usize, bit: Option<bool>) -> Column
        requires { k < 64 }
        ensures here { column_bit result k ≡ bit }
        ensures others { (j : ℕ) → j < 64 → j ≢ k → column_bit result j ≡ column_bit self j }
    {
        match bit {
            None => Column {
                x: with_bit(self.x, k, true),
                one: self.one,
            },
            Some(bit) => Column {
                x: with_bit(self.x, k, false),
                one: with_bit(self.one, k, bit),
            },
        }
    }
}

/// The word with every bit turned.
fn invert(word: u64) -> u64
    ensures { (k : ℕ) → k < 64 → has_bit result k ≡ not (has_bit word k) }
{
    !word
}

/// The word with this in the place of bit `k`.
fn with_bit(word: u64, k: usize, bit: bool) -> u64
    requires { k < 64 }
    ensures here { has_bit result k ≡ bit }
    ensures others { (j : ℕ) → j < 64 → j ≢ k → has_bit result j ≡ has_bit word j }
{
    if bit { word | 1 << k } else { word & !(1 << k) }
}

/// Up to 64 opcodes of one length, each with its place. Contracts see it as the list of these.
#[derive(Drop)]
pub(crate) struct Block {
    places: Vec<usize>,
    /// Of each bit of the opcodes, from bit 0 on.
    columns: Vec<Column>,
}

impl Model for Block {
    ghost use Rattle.std.specs.Prelude.{ℕ, ◌≤◌, List, length};
    ghost use Rattle.bsdl_device.specs.Device.{Pattern};

    ghost Value = { List (ℕ × Pattern) };

    ghost use Rattle.board_description.specs.Blocks.{pairs_from};

    ghost view = { λ b. pairs_from 0 b.places.items b.columns.items };

    ghost invariant = { λ b. length b.places.items ≤ 64 };
}

impl Block {
    /// A single opcode and its place. Refuses for want of memory alone.
    fn new(alloc: Global, place: usize, pattern: &[Option<bool>]) -> Result<Block, AllocError>
        ensures { IfOk result (λ block. block ≡ (place, pattern.now) ∷ []) }
    {
        let mut places = Vec::new(alloc);
        places.push(place)?;
        let mut columns = Vec::from_elem(alloc, ZEROS, pattern.len())?;
        put_pattern(&mut columns, 0, pattern);
        Ok(Block { places, columns })
    }

    /// Adds an opcode and its place, if there is room for it and it is as long as the others; whether it was added.
    /// Refuses for want of memory alone.
    fn add(&mut self, place: usize, pattern: &[Option<bool>]) -> Result<bool, AllocError>
        ensures { IfOk result (λ is_added. self.new
            ≡ (if is_added then self.old ++ (place, pattern.now) ∷ [] else self.old)) }
    {
        let count = self.places.len();
        if count >= ROOM || pattern.len() != self.columns.len() {
            return Ok(false);
        }
        self.places.push(place)?;
        put_pattern(&mut self.columns, count, pattern);
        Ok(true)
    }

    /// The place of the first opcode that takes this one.
    fn first_taking(&self, pattern: &[Option<bool>]) -> Option<usize>
        ensures { result ≡ x_taking self.now pattern.now }
    {
        let first = lowest(taking(&self.columns, pattern))?;
        place_at(&self.places, first)
    }
}

/// The place of the `k`-th opcode, where there is one.
fn place_at(places: &[usize], k: usize) -> Option<usize>
    ensures { result ≡ slice_get places.now k }
{
    places.get(k).copied()
}

/// Makes an opcode, as long as those of these columns (asked), their `k`-th.
fn put_pattern(columns: &mut [Column], k: usize, pattern: &[Option<bool>])
    requires k { k < 64 }
    requires long { length columns.old ≡ length pattern.now }
    ensures here { pattern_at columns.new k ≡ pattern.now }
    ensures others { (j : ℕ) → j < 64 → j ≢ k → pattern_at columns.new j ≡ pattern_at columns.old j }
{
    for (i, bit) in pattern.iter().enumerate() {
        columns[i] = columns[i].with(k, *bit);
    }
}

/// Which opcodes of these columns take another: the `k`-th where bit `k` of the word is 1.
fn taking(columns: &[Column], pattern: &[Option<bool>]) -> u64
    ensures { (k : ℕ) → k < 64 → has_bit result k ≡ spec.takes (pattern_at columns.now k) pattern.now }
{
    if columns.len() != pattern.len() {
        return 0;
    }
    let mut word = u64::MAX;
    for (i, bit) in pattern.iter().enumerate() {
        word &= columns[i].taking(*bit);
        if word == 0 {
            return 0;
        }
    }
    word
}

/// The lowest bit of a word that is 1.
fn lowest(word: u64) -> Option<usize>
    ensures { IsFirst (has_bit word) 64 result }
{
    if word == 0 {
        return None;
    }
    Some(word.trailing_zeros() as usize)
}

/// Adds an opcode and its place to the last of these blocks, or as a block of its own. Refuses for want of memory
/// alone.
pub(crate) fn add_to(
    alloc: Global,
    blocks: &mut Vec<Block>,
    place: usize,
    pattern: &[Option<bool>],
) -> Result<(), AllocError>
    ensures { OnOk result (joined blocks.new.items ≡ joined blocks.old.items ++ (place, pattern.now) ∷ []) }
{
    if !add_to_last(blocks, place, pattern)? {
        blocks.push(Block::new(alloc, place, pattern)?)?;
    }
    Ok(())
}

/// Adds an opcode and its place to the last of these blocks, if it fits there; whether it was added. Refuses for want
/// of memory alone.
fn add_to_last(
    blocks: &mut [Block],
    place: usize,
    pattern: &[Option<bool>],
) -> Result<bool, AllocError>
    ensures { IfOk result (λ is_added. joined blocks.new
        ≡ (if is_added then joined blocks.old ++ (place, pattern.now) ∷ [] else joined blocks.old)) }
{
    let count = blocks.len();
    if count == 0 {
        return Ok(false);
    }
    let last = &mut blocks[count - 1];
    last.add(place, pattern)
}

/// The place of the first opcode of these blocks that takes another.
pub(crate) fn first_in(blocks: &[Block], pattern: &[Option<bool>]) -> Option<usize>
    ensures { result ≡ x_taking (joined blocks.now) pattern.now }
{
    for block in blocks {
        if let Some(place) = block.first_taking(pattern) {
            return Some(place);
        }
    }
    None
}
