use crate::players::player_of;
use jt_player::{Board, Ending, Event, Joined, Standing};
use std::alloc::Global;
use std::process::Abort;
use std::test::Fail;

/// One scan of two bits, for which the instruction register gives 1, then 0.
const SCAN: &[u8] = b"SIR 2 TDI (3) TDO (1);";

/// A text's player joined to a board by pipes of this room.
fn joined(
    rt: &impl Abort,
    alloc: Global,
    text: &[u8],
    board: Board,
    room: usize,
) -> Result<Joined, Fail> {
    let player = player_of(alloc, text)?;
    assert!(rt; room > 0 && player.is_fresh());
    Ok(
        Joined::new(alloc, player, board, room, room)
            .ok()
            .ok_or("no memory")?,
    )
}

/// One byte each way in turn, over pipes of one byte: each byte is put and served, and each answer taken.
#[test]
fn byte_by_byte(rt: HostRuntime) -> Result<(), Fail> {
    let board = Board::bare(rt.alloc(), 1)?;
    let mut joined = joined(&rt, rt.alloc(), SCAN, board, 1)?;
    let mut moved = 0u64;
    for _ in 0..36 {
        let standing = joined.run(&[Event::Put(1), Event::Serve(1), Event::Take(1)]);
        moved = moved.saturating_add(standing.moved);
    }
    assert_eq!(rt; moved, 34 + 34 + 2);
    let after = Standing {
        moved: 0,
        ended: Some(Ending::Pass),
        lost: false,
    };
    assert_eq!(rt; joined.run(&[Event::Put(1), Event::Lose]), after);
    assert_eq!(rt; joined.finish(), Ending::Pass);
    assert!(rt; !joined.board().snapshot().tck());
    Ok(())
}

/// A loss once the first answer was taken, and the same program again on the board that it left.
#[test]
fn a_loss_within_a_scan(rt: HostRuntime) -> Result<(), Fail> {
    let board = Board::bare(rt.alloc(), 1)?;
    let mut first = joined(&rt, rt.alloc(), SCAN, board, 64)?;
    let standing = first.run(&[
        Event::Put(64),
        Event::Serve(64),
        Event::Take(1),
        Event::Lose,
    ]);
    assert_eq!(rt; standing.ended, Some(Ending::Lost { command: 1 }));
    assert!(rt; standing.lost);
    let mut again = joined(&rt, rt.alloc(), SCAN, first.into_board(), 64)?;
    assert_eq!(rt; again.finish(), Ending::Pass);
    Ok(())
}
