//! Calls that make a board.

use crate::given::{REFUSED, USUAL};
use byte_streams::{Counted, Plain};
use jt_player::{Board, BoardFault, bsdl_names, write_report};
use std::alloc::Global;
use std::io;

/// Two devices on one net, the second with a core of zeros.
const BOARD: &[u8] = b"
device = [
  { name = \"U1\", bsdl = \"device\", core = \"011\" },
  { name = \"U2\", bsdl = \"device\", extest = \"update\" },
]
net = [
  { name = \"N\", pins = [\"U1.Q\", \"U2.D\"], pull = \"up\" },
  { name = \"M\", pins = [\"U2.Q\"] },
]
";

/// Two devices of eight outputs without a control, which a chain keeps as blocks, and a flag with one.
const BLOCKS: &[u8] = b"
device = [
  { name = \"U1\", bsdl = \"device\", core = \"0100000000\" },
  { name = \"U2\", bsdl = \"device\", core = \"0100000001\" },
]
net = [
  { name = \"N0\", pins = [\"U1.D(0)\", \"U2.D(0)\"] },
  { name = \"N1\", pins = [\"U1.D(1)\", \"U2.D(1)\"] },
  { name = \"N2\", pins = [\"U1.D(2)\", \"U2.D(2)\"] },
  { name = \"N3\", pins = [\"U1.D(3)\", \"U2.D(3)\"] },
  { name = \"N4\", pins = [\"U1.D(4)\", \"U2.D(4)\"] },
  { name = \"N5\", pins = [\"U1.D(5)\", \"U2.D(5)\"] },
  { name = \"N6\", pins = [\"U1.D(6)\", \"U2.D(6)\"] },
  { name = \"N7\", pins = [\"U1.D(7)\", \"U2.D(7)\"] },
  { name = \"F\", pins = [\"U1.FLAG\", \"U2.FLAG\"], pull = \"up\" },
]
";

/// Two devices whose cores follow, the second what the first drives.
const STRINGS: &[u8] = b"
device = [
  { name = \"U1\", bsdl = \"device\", core = \"010\", follow = [\"Q = !D\"] },
  { name = \"U2\", bsdl = \"device\", core = \"010\", follow = [\"Q = D\"] },
]
net = [
  { name = \"M\", pins = [\"U1.D\"], pull = \"down\" },
  { name = \"N\", pins = [\"U1.Q\", \"U2.D\"] },
  { name = \"V\", pins = [\"U2.Q\"] },
]
";

/// Two devices whose cores follow each other, which is refused.
const CIRCLE: &[u8] = b"
device = [
  { name = \"U1\", bsdl = \"device\", follow = [\"Q = D\"] },
  { name = \"U2\", bsdl = \"device\", follow = [\"Q = D\"] },
]
net = [
  { name = \"N\", pins = [\"U1.Q\", \"U2.D\"] },
  { name = \"M\", pins = [\"U2.Q\", \"U1.D\"] },
]
";

/// How many bare devices a board is made of.
const BARE: usize = 32;

/// The names of the descriptions that a board file names.
pub(crate) fn names_of(rt: &HostRuntime, text: &[u8]) -> io::Result<()> {
    let told = tell_first_names(rt, &bsdl_names(rt.alloc(), text));
    if told? {
        return Ok(());
    }
    rt.println(REFUSED)?;
    tell_names(rt, &bsdl_names(rt.alloc(), text))
}

/// Tells what the first call found, unless it wanted memory. Answers whether it told it.
fn tell_first_names(rt: &HostRuntime, found: &Result<Vec<String>, BoardFault>) -> io::Result<bool> {
    if matches!(found, Err(BoardFault::NoMemory)) {
        return Ok(false);
    }
    rt.println(USUAL)?;
    tell_names(rt, found)?;
    Ok(true)
}

fn tell_names(rt: &HostRuntime, found: &Result<Vec<String>, BoardFault>) -> io::Result<()> {
    match found {
        Ok(names) => {
            for name in names {
                rt.println(name.as_str())?;
            }
            Ok(())
        }
        Err(fault) => rt.println(fault),
    }
}

/// The board file of this name; of no name one without blocks and strings.
fn board_file(name: &str) -> &'static [u8] {
    match name {
        "blocks" => BLOCKS,
        "strings" => STRINGS,
        "circle" => CIRCLE,
        _ => BOARD,
    }
}

/// A board is made of the board file of this name and a device's description.
pub(crate) fn from_text(rt: &HostRuntime, name: &str, description: &[u8]) -> io::Result<()> {
    let text = board_file(name);
    let files = [("device", description)];
    let told = tell_first(rt, &Board::from_text(rt.alloc(), text, &files));
    if told? {
        return Ok(());
    }
    rt.println(REFUSED)?;
    tell_board(rt, &Board::from_text(rt.alloc(), text, &files))
}

/// Tells what the first call made, unless it wanted memory. Answers whether it told it.
fn tell_first(rt: &HostRuntime, found: &Result<Board, BoardFault>) -> io::Result<bool> {
    if matches!(found, Err(BoardFault::NoMemory)) {
        return Ok(false);
    }
    rt.println(USUAL)?;
    tell_board(rt, found)?;
    Ok(true)
}

/// The board of cores that follow, of devices of this description; `None` where it cannot be made.
pub(crate) fn following(alloc: Global, description: &[u8]) -> Option<Board> {
    Board::from_text(alloc, STRINGS, &[("device", description)]).ok()
}

/// A board of bare devices is made.
pub(crate) fn bare(rt: &HostRuntime) -> io::Result<()> {
    let told = tell_first(rt, &Board::bare(rt.alloc(), BARE));
    if told? {
        return Ok(());
    }
    rt.println(REFUSED)?;
    tell_board(rt, &Board::bare(rt.alloc(), BARE))
}

fn tell_board(rt: &HostRuntime, found: &Result<Board, BoardFault>) -> io::Result<()> {
    match found {
        Ok(board) => tell_report(rt, board),
        Err(fault) => rt.println(fault),
    }
}

/// Writes a board's report to standard output.
pub(crate) fn tell_report(rt: &HostRuntime, board: &Board) -> io::Result<()> {
    let mut out = Counted::new(Plain(io::writer(rt)));
    if out.failures() == 0 && write_report(board, &mut out).is_err() {
        return rt.println("the report is broken off");
    }
    Ok(())
}
