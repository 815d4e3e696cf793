//! Plays over both ends of a link, and what serving leaves that no clause says.

use crate::players::player_of;
use jt_player::{Board, Both, Counted, Ending, Served, Stop, loop_over, serve_over};
use std::alloc::{AllocError, Global};
use std::process::Abort;
use std::test::Fail;

/// A scan of two bits, both wanted.
const SCAN: &[u8] = b"SIR 2 TDI (3) TDO (1);";
/// What its play sends to one bare device, and what that answers.
const SENT: &[u8] = b"r2626262626004262604041R53R726040Q";

const ANSWERS: &[u8] = b"10";

/// Plays the scan over two ends of memory: the board's end holds `down`, the player's `up`, and the board's end is lost
/// after `k` bytes that it writes.
fn looped(alloc: Global, down: &[u8], up: &[u8], k: usize) -> Result<Ending, Fail> {
    let mut player_end = Counted::new(Both {
        reader: up,
        writer: Vec::new(alloc),
    });
    let mut board_end = Counted::new(Both {
        reader: down,
        writer: Stop::new(Vec::new(alloc), k, 1),
    });
    let mut board = Board::bare(alloc, 1)?;
    let player = player_of(alloc, SCAN)?;
    if !player.is_fresh() {
        return Err("a used player")?;
    }
    Ok(loop_over(&mut player_end, &mut board_end, player, &mut board))
}

/// What the board's end reads, what the player's end reads, how many bytes the board's end writes before it is lost, and
/// how the loop ends.
const LOOPED: &[(&[u8], &[u8], usize, Ending)] = &[
    (SENT, ANSWERS, 1000, Ending::Pass),
    (SENT, b"1", 1000, Ending::Lost { command: 1 }),
    (SENT, ANSWERS, 1, Ending::Lost { command: 1 }),
    (
        b"r2626262626004262604041R53Z726040Q",
        ANSWERS,
        1000,
        Ending::Lost { command: 1 },
    ),
    (
        b"r2626262626004262604041R530726040Q",
        ANSWERS,
        1000,
        Ending::Lost { command: 1 },
    ),
    (
        b"r2626262626004262604041R53R72604QQ",
        ANSWERS,
        1000,
        Ending::Lost { command: 1 },
    ),
];

#[test]
fn a_loop_shows_what_its_ends_did_not_write(rt: HostRuntime) -> Result<(), Fail> {
    for (down, up, k, wanted) in LOOPED {
        assert_eq!(rt; looped(rt.alloc(), down, up, *k)?, *wanted);
    }
    Ok(())
}

/// A device with an identification of 32 bits, which a reset selects; one output with its control, and one input.
pub(crate) const CODED: &str =
    "entity K is port (TDI, TMS, TCK : in bit; TDO, Q : out bit; D : in bit);
  attribute TAP_SCAN_IN of TDI : signal is true; attribute TAP_SCAN_MODE of TMS : signal is true;
  attribute TAP_SCAN_OUT of TDO : signal is true; attribute TAP_SCAN_CLOCK of TCK : signal is (1.0e6, BOTH);
  attribute INSTRUCTION_LENGTH of K : entity is 2;
  attribute INSTRUCTION_OPCODE of K : entity is \"BYPASS (11), EXTEST (00), SAMPLE (01), IDCODE (10)\";
  attribute INSTRUCTION_CAPTURE of K : entity is \"01\";
  attribute IDCODE_REGISTER of K : entity is \"00000001001000110100010101100111\";
  attribute BOUNDARY_LENGTH of K : entity is 3;
  attribute BOUNDARY_REGISTER of K : entity is
    \"0 (BC_1, Q, output3, X, 1, 0, Z), 1 (BC_1, *, control, 0), 2 (BC_1, D, input, X)\";
end;";

/// Two such devices.
fn coded_board(alloc: Global) -> Result<Board, Fail> {
    let file = "[[device]]\nname='U1'\nbsdl='k'\n[[device]]\nname='U2'\nbsdl='k'\n";
    match Board::from_text(alloc, file.as_bytes(), &[("k", CODED.as_bytes())]) {
        Ok(board) => Ok(board),
        Err(_) => Err("no board")?,
    }
}

/// The bytes of a scan of 100 data bits from a reset on, each asked for, which goes on in the instruction column.
fn scan_of_100(alloc: Global) -> Result<Vec<u8>, AllocError> {
    let mut bytes = Vec::new(alloc);
    bytes.extend_from_slice(b"04260404")?;
    for k in 0..100_u8 {
        let (low, high) = match (k % 3 == 0, k == 99) {
            (false, false) => (b'0', b'4'),
            (true, false) => (b'1', b'5'),
            (false, true) => (b'2', b'6'),
            (true, true) => (b'3', b'7'),
        };
        bytes.extend_from_slice(&[low, b'R', high])?;
    }
    bytes.extend_from_slice(b"262626040404150")?;
    Ok(bytes)
}

/// How the lists of each device are packed, their bits and the place of bit 0 in their words.
fn layouts(rt: &impl Abort, alloc: Global, board: &Board) -> Result<String, Fail> {
    let snapshot = board.snapshot();
    let mut shown = String::new(alloc);
    for i in 0..snapshot.devices() {
        assert!(rt; i < snapshot.devices());
        let (latch, stage) = (snapshot.latch(i).layout(), snapshot.stage(i).layout());
        shown.push_str(&format!(in alloc; "{latch:?} {stage:?} ")?)?;
        if let Some(id) = snapshot.id(i) {
            let id = id.layout();
            shown.push_str(&format!(in alloc; "{id:?}\n")?)?;
        }
    }
    Ok(shown)
}

#[test]
fn a_scan_that_is_served_leaves_each_list_as_its_bytes_do(rt: HostRuntime) -> Result<(), Fail> {
    let bytes = scan_of_100(rt.alloc())?;
    let wanted = layouts_by_bytes(&rt, rt.alloc(), &bytes)?;
    for piece in &[1024, 1, 3, 4, 63, 64, 65][..] {
        let found = layouts_served(&rt, rt.alloc(), &bytes, *piece)?;
        assert_eq!(&rt; found.as_str(), wanted.as_str());
    }
    Ok(())
}

/// The layouts that bytes leave that a board takes one by one.
fn layouts_by_bytes(rt: &impl Abort, alloc: Global, bytes: &[u8]) -> Result<String, Fail> {
    let mut board = coded_board(alloc)?;
    for byte in bytes {
        let _ = board.byte(*byte);
    }
    layouts(rt, alloc, &board)
}

/// The layouts that they leave where they are served in pieces.
fn layouts_served(
    rt: &impl Abort,
    alloc: Global,
    bytes: &[u8],
    piece: usize,
) -> Result<String, Fail> {
    let mut board = coded_board(alloc)?;
    let mut writer = Counted::new(Vec::new(alloc));
    let mut reader = Counted::new(Stop::new(bytes, usize::MAX, piece.max(1)));
    let ended = serve_over(&mut reader, &mut writer, &mut board, 1000);
    assert_eq!(rt; ended, Served::Closed);
    assert_eq!(rt; writer.into_inner().len(), 100);
    layouts(rt, alloc, &board)
}
