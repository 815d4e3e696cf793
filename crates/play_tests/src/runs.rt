//! Plays at once, on boards of every size.
use crate::players::player_of;
use byte_streams::Counted;
use jt_player::{Board, Ending, play_board, run_play};
use std::alloc::Global;
use std::process::Abort;
use std::test::Fail;

/// How many bytes a play tells on so many bare devices, and its status; 255 where it was broken.
fn ran(rt: &impl Abort, alloc: Global, text: &[u8], devices: usize) -> Result<(usize, u8), Fail> {
    let mut board = Board::bare(alloc, devices)?;
    let mut out = Counted::new(Vec::new(alloc));
    let mut err = Counted::new(Vec::new(alloc));
    assert!(rt; out.failures() == 0 && err.failures() == 0);
    let status = run_play(alloc, text, &mut board, false, &mut out, &mut err).unwrap_or(255);
    Ok((out.into_inner().len(), status))
}

/// With ample memory each size is played: chains of one device to 256, and a field of 1,048,576 bits.
#[test]
fn boards_of_every_size(rt: HostRuntime) -> Result<(), Fail> {
    for devices in 1..=256usize {
        // a line of the verdict, and one of each device, U1 to U9 and on
        let told = 5 + 19 * devices + devices.saturating_sub(9) + devices.saturating_sub(99);
        assert_eq!(rt; ran(&rt, rt.alloc(), b"STATE RESET;", devices)?, (told, 0));
    }
    assert!(rt; Board::bare(rt.alloc(), 257).is_err());
    let (_, status) = ran(&rt, rt.alloc(), b"SDR 1048576 TDI (0) TDO (0);", 256)?;
    assert_eq!(rt; status, 0);
    Ok(())
}

/// Plays a text on a board of so many bare devices that took bytes before, and asserts that it passes.
fn assert_passes(rt: &impl Abort, alloc: Global, text: &[u8], devices: usize) -> Result<(), Fail> {
    let player = player_of(alloc, text)?;
    assert!(rt; player.is_fresh());
    let mut board = Board::bare(alloc, devices)?;
    for byte in b"04260404151".as_slice() {
        let _ = board.byte(*byte);
    }
    assert_eq!(rt; play_board(player, &mut board), Ending::Pass);
    assert!(rt; !board.snapshot().tck());
    Ok(())
}

/// Texts that pass, and on how many devices: the longest run and the longest scan on the longest chain.
const PASSING: &[(&[u8], usize)] = &[
    (b"SIR 6 TDI (3F) TDO (15); STATE DRPAUSE;", 3),
    (b"RUNTEST 4294967295 TCK;", 256),
    (
        b"SIR 64 TDI (FFFFFFFFFFFFFFFF); SDR 1048576 TDI (0) TDO (0);",
        256,
    ),
];

#[test]
fn plays_on_used_boards(rt: HostRuntime) -> Result<(), Fail> {
    for (text, devices) in PASSING {
        assert_passes(&rt, rt.alloc(), text, *devices)?;
    }
    Ok(())
}
