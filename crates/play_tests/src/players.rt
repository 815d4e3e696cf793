use jt_player::{Ending, Player, accept};
use std::alloc::Global;
use std::process::Abort;
use std::test::Fail;

/// A fresh player of a text.
pub(crate) fn player_of(alloc: Global, text: &[u8]) -> Result<Player, Fail> {
    let program = accept(alloc, text).ok().ok_or("refused")?;
    Ok(Player::new(alloc, program).ok().ok_or("no memory")?)
}

/// Asserts that these are the next bytes, and whether the play is over then.
fn assert_next(rt: &impl Abort, player: &mut Player, wanted: &[u8], ended: Option<Ending>) {
    let mut buffer = [0; 64];
    let count = player.next_bytes(&mut buffer);
    assert_eq!(rt; &buffer[..count], wanted);
    assert_eq!(rt; player.ended(), ended);
}

#[test]
fn two_answers_are_owed_at_once(rt: HostRuntime) -> Result<(), Fail> {
    let mut player = player_of(rt.alloc(), b"SIR 2 TDI (3) TDO (1);")?;
    assert!(rt; player.is_fresh());
    assert_played(&rt, &mut player);
    Ok(())
}

/// Asserts the play of the scan, which owes two answers at once.
fn assert_played(rt: &impl Abort, player: &mut Player) {
    assert_eq!(rt; (player.working(), player.answers(b"1")), (0, 0));
    assert_next(rt, player, b"r2626262626004262604041R53R726040", None);
    assert!(rt; !player.is_fresh());
    assert_eq!(rt; (player.working(), player.answers(b"1")), (1, 1));
    assert_next(rt, player, b"", None);
    assert_eq!(rt; (player.answers(b"0111"), player.working()), (1, 2));
    assert_next(rt, player, b"Q", Some(Ending::Pass));
    assert_next(rt, player, b"", Some(Ending::Pass));
}
