//! What a board's snapshot shows.
use crate::links::CODED;
use jt_player::{Board, BoardFault, BsdlFault, Level, Snapshot};
use std::process::Abort;
use std::test::Fail;

/// One device with its output on a net.
const BOARD: &[u8] = b"[[device]]\nname='U1'\nbsdl='k'\n[[net]]\nname='N'\npins=['U1.Q']\n";

/// EXTEST is shifted in, and then 1, 1 and 0 into the boundary register, up to DRPAUSE.
const TO_PAUSE: &[u8] = b"r262626262600426260404042626040260404151526040";

/// From there to IDLE, by way of the update.
const TO_IDLE: &[u8] = b"2626040";

fn send(board: &mut Board, bytes: &[u8]) {
    for byte in bytes {
        let _ = board.byte(*byte);
    }
}

#[test]
fn registers_of_a_device(rt: HostRuntime) -> Result<(), Fail> {
    let mut board = Board::from_text(rt.alloc(), BOARD, &[("k", CODED.as_bytes())])?;
    assert_registers(&rt, &mut board);
    Ok(())
}

/// Asserts the registers as the board powers up, in the pause of a scan, and updated.
fn assert_registers(rt: &impl Abort, board: &mut Board) {
    assert_shown(
        rt,
        &board.snapshot(),
        ("RESET", "IDCODE"),
        *b"2000",
        Level::Float,
    );
    send(board, TO_PAUSE);
    assert_shown(
        rt,
        &board.snapshot(),
        ("DRPAUSE", "EXTEST"),
        *b"0030",
        Level::Float,
    );
    send(board, TO_IDLE);
    assert_shown(
        rt,
        &board.snapshot(),
        ("IDLE", "EXTEST"),
        *b"0033",
        Level::One,
    );
}

/// Asserts what a snapshot shows of the device: its state and instruction; the digits of its latch, of the instruction
/// stage, of the boundary register and of the update stage; and the level of the net.
fn assert_shown(
    rt: &impl Abort,
    snapshot: &Snapshot<'_>,
    at: (&str, &str),
    digits: [u8; 4],
    level: Level,
) {
    assert!(rt; 0 < snapshot.devices() && 0 < snapshot.nets());
    assert!(rt; !snapshot.tck() && !snapshot.trst());
    assert_eq!(rt; (snapshot.name(0), snapshot.bypass(0)), ("U1", false));
    assert_eq!(rt;
        (snapshot.state(0).word(), snapshot.instruction(0)),
        (at.0, Some(at.1))
    );
    let shown = [
        snapshot.latch(0).hex_digit(0),
        snapshot.stage(0).hex_digit(0),
        snapshot.boundary(0).hex_digit(0),
        snapshot.boundary_update(0).hex_digit(0),
    ];
    assert_eq!(rt; shown, digits);
    assert_eq!(rt; snapshot.net(0), ("N", level));
    assert!(rt; snapshot.id(0).is_some() && snapshot.user(0, 0).is_none());
}

/// Where bit 0 of the latch of the first device stands, and of its stage.
fn starts(rt: &impl Abort, board: &Board) -> (usize, usize) {
    let snapshot = board.snapshot();
    assert!(rt; 0 < snapshot.devices());
    (
        snapshot.latch(0).layout().start,
        snapshot.stage(0).layout().start,
    )
}

#[test]
fn an_update_of_the_instruction_that_stands_copies_its_stage_whole(
    rt: HostRuntime,
) -> Result<(), Fail> {
    let mut board = Board::bare(rt.alloc(), 1)?;
    assert_starts(&rt, &mut board);
    Ok(())
}

/// Asserts where the bits stand: BYPASS is shifted in as after the reset, by two bits and by three (Select, Select,
/// Capture, Shift, the bits, Update, IDLE).
fn assert_starts(rt: &impl Abort, board: &mut Board) {
    send(board, b"040");
    assert_eq!(rt; starts(rt, board), (0, 0));
    send(board, b"26260404153726040");
    assert_eq!(rt; starts(rt, board), (2, 2));
    send(board, b"2626040415153726040");
    assert_eq!(rt; starts(rt, board), (3, 3));
}

#[test]
fn faults_of_boards_that_are_told_otherwise(rt: HostRuntime) -> Result<(), Fail> {
    let unknown = BoardFault::UnknownFile(String::new(rt.alloc()));
    let refused = BoardFault::Bsdl(BsdlFault::NoMemory);
    let told = format!(in rt.alloc(); "{unknown}\n{refused}\n{}\n", BoardFault::NoMemory)?;
    assert_eq!(rt; told.as_str(), "C3 UnknownFile\nC4 Bsdl\nC8 NoMemory\n");
    Ok(())
}
