//! A board is described: 32 descriptions with long names, and 4,096 nets between their ports.

use crate::digests::{Digest, Run, add_run};
use crate::numbers::Numbers;
use crate::texts::Text;
use crate::wired;
use jt_player::Board;
use std::alloc::{AllocError, Global};

const JOB: u8 = 6;

const DEVICES: usize = 32;

/// The ports of a device beside the TAP's, each of which has a cell.
const PORTS: usize = 1500;

/// The ports of a device that are on nets: those of even nets, and those of odd ones.
const WIRED: usize = 128;

const NETS: usize = DEVICES * WIRED;

/// Of this many devices one has very long names.
const LONG_NAMED: usize = 8;

pub fn run(alloc: Global, seed: u32, rounds: u32) -> Result<u64, AllocError> {
    let mut digest = Digest::new();
    for round in 0..rounds {
        let mut numbers = Numbers::of(seed, JOB, round);
        if let Some(mut board) = board(alloc, &mut numbers)? {
            add_run(alloc, &mut digest, Run::Play, b"STATE IDLE;", &mut board);
        }
    }
    Ok(digest.number())
}

fn board(alloc: Global, numbers: &mut Numbers) -> Result<Option<Board>, AllocError> {
    let mut names = Vec::with_capacity(alloc, DEVICES)?;
    let mut devices = Vec::with_capacity(alloc, DEVICES)?;
    let mut file_names = Vec::with_capacity(alloc, DEVICES)?;
    let mut board = Text::with_room(alloc, 2_000_000)?;
    for number in 0..DEVICES {
        let longest = if number % LONG_NAMED == 0 { 600 } else { 60 };
        let name = name_of(alloc, numbers, longest)?;
        put(&mut devices, description(alloc, name.bytes())?)?;
        put(&mut names, name)?;
        let mut file_name = String::new(alloc);
        file_name.push_str("part")?;
        for _ in 0..number {
            file_name.push('_')?;
        }
        add_device(&mut board, numbers, number, file_name.as_str())?;
        put(&mut file_names, file_name)?;
    }
    add_nets(&mut board, names.as_slice())?;
    let mut files = Vec::with_capacity(alloc, DEVICES)?;
    for (name, device) in file_names.iter().zip(devices.iter()) {
        put(&mut files, (name.as_str(), device.bytes()))?;
    }
    Ok(Board::from_text(alloc, board.bytes(), &files).ok())
}

fn put<T: Drop>(list: &mut Vec<T>, item: T) -> Result<(), AllocError> {
    list.push(item)?;
    Ok(())
}

/// What the names of a device's ports begin with.
fn name_of(alloc: Global, numbers: &mut Numbers, longest: u64) -> Result<Text, AllocError> {
    let mut name = Text::with_room(alloc, 700)?;
    name.add("Pin")?;
    let count = numbers.below(longest).saturating_add(20) / 4;
    for _ in 0..count {
        name.add("_")?;
        name.add_number(numbers.below(1000))?;
    }
    name.add("_")?;
    Ok(name)
}

/// A description with ports of these names, the first half of which drive and the others see.
fn description(alloc: Global, name: &[u8]) -> Result<Text, AllocError> {
    let mut text = Text::with_room(alloc, 2 * PORTS * name.len().min(1000) + 100_000)?;
    wired::add_head(&mut text)?;
    for port in 0..PORTS {
        text.add("; ")?;
        text.add_named(name, port)?;
        text.add(if port < PORTS / 2 {
            " : out bit"
        } else {
            " : in bit"
        })?;
    }
    wired::add_middle(&mut text, wired::usual_instructions(), PORTS)?;
    for port in 0..PORTS {
        text.add(" &\n    \"")?;
        text.add_number(port)?;
        text.add(" (BC_1, ")?;
        text.add_named(name, port)?;
        text.add(if port < PORTS / 2 {
            ", output2, X),\""
        } else {
            ", input, X),\""
        })?;
    }
    wired::add_tail(&mut text)?;
    Ok(text)
}

/// Adds a device of this description, with a core of its own.
fn add_device(
    board: &mut Text,
    numbers: &mut Numbers,
    number: usize,
    file_name: &str,
) -> Result<(), AllocError> {
    board.add("[[device]]\nname = \"U")?;
    board.add_number(number)?;
    board.add("\"\nbsdl = \"")?;
    board.add(file_name)?;
    board.add("\"\n")?;
    wired::add_core(board, numbers, PORTS)
}

/// Adds the nets: an output of each device on an input of the next.
fn add_nets(board: &mut Text, names: &[Text]) -> Result<(), AllocError> {
    for net in 0..NETS {
        let from = net % DEVICES;
        let to = (net + 1) % DEVICES;
        let port = net / DEVICES;
        wired::add_net(board, net)?;
        if let (Some(out), Some(seen)) = (names.get(from), names.get(to)) {
            add_pin(board, from, out.bytes(), port)?;
            add_pin(board, to, seen.bytes(), PORTS / 2 + port)?;
        }
        wired::end_net(board)?;
    }
    Ok(())
}

fn add_pin(board: &mut Text, device: usize, name: &[u8], port: usize) -> Result<(), AllocError> {
    board.add("\"U")?;
    board.add_number(device)?;
    board.add(".")?;
    board.add_named(name, port)?;
    board.add("\", ")
}
