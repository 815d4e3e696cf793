//! Calls that take no memory: made or left out, the program asks for memory as many times.

use crate::boards::following;
use crate::given::BEFORE;
use crate::playing::player_and_board;
use byte_streams::{Counted, Plain};
use jt_player::{Board, Event, Joined, Player, Reply, play_board, serve_over, take_bytes};
use std::alloc::Global;
use std::io;

/// What is moved at once, and how often.
const PIECE: usize = 64;

const ROUNDS: usize = 10_000;

/// What plays without asking for memory: a player and its board, both joined by pipes, and a board of cores that
/// follow.
#[derive(Drop)]
struct Made {
    player: Player,
    board: Board,
    joined: Joined,
    following: Board,
}

/// Makes a player, a board, both joined, and a board of cores that follow; then, by the word, nothing more, moves bytes
/// through each call that moves some, or plays at once.
pub(crate) fn run(rt: &HostRuntime, how: &str, text: &[u8]) -> io::Result<()> {
    let Some(mut made) = make(rt.alloc(), text) else {
        return rt.println(BEFORE);
    };
    if how == "play" {
        play_made(rt, made)
    } else {
        run_made(rt, how, &mut made)
    }
}

/// Does nothing, or moves bytes.
fn run_made(rt: &HostRuntime, how: &str, made: &mut Made) -> io::Result<()> {
    match how {
        "bytes" => {
            move_bytes(&mut made.player, &mut made.board);
            move_bytes(&mut made.player, &mut made.following);
            serve_bytes(rt, &mut made.board);
            serve_bytes(rt, &mut made.following);
            run_events(&mut made.joined);
            rt.println("bytes")
        }
        "runs" => {
            let given = show_and_take(&mut made.player, &mut made.board);
            let idle = move_runs(&mut made.board);
            let followed = move_runs(&mut made.following);
            rt.println(format_args!("{given} given, {idle} and {followed} idle"))
        }
        _ => rt.println("start"),
    }
}

/// Plays at once.
fn play_made(rt: &HostRuntime, made: Made) -> io::Result<()> {
    let Made {
        player,
        mut board,
        ..
    } = made;
    if !player.is_fresh() {
        return rt.println(BEFORE);
    }
    let ending = play_board(player, &mut board);
    rt.println(format_args!("{ending:?}"))
}

/// `None` for want of memory or where the text is refused.
fn make(alloc: Global, text: &[u8]) -> Option<Made> {
    let joined = join(alloc, text)?;
    let (player, board) = player_and_board(alloc, text)?;
    let following = following(alloc, FOLLOWER)?;
    Some(Made {
        player,
        board,
        joined,
        following,
    })
}

/// A player and a board, joined.
fn join(alloc: Global, text: &[u8]) -> Option<Joined> {
    let (player, board) = player_and_board(alloc, text)?;
    if !player.is_fresh() {
        return None;
    }
    Joined::new(alloc, player, board, PIECE, PIECE).ok()
}

/// A device of one output with a control, and one input.
const FOLLOWER: &[u8] = b"
entity K is
  port (TDI, TMS, TCK : in bit; TDO, Q : out bit; D : in bit);
  attribute TAP_SCAN_IN of TDI : signal is true;
  attribute TAP_SCAN_MODE of TMS : signal is true;
  attribute TAP_SCAN_OUT of TDO : signal is true;
  attribute TAP_SCAN_CLOCK of TCK : signal is (10.0e6, BOTH);
  attribute INSTRUCTION_LENGTH of K : entity is 2;
  attribute INSTRUCTION_OPCODE of K : entity is \"BYPASS (11), EXTEST (00), SAMPLE (01), PRELOAD (01)\";
  attribute INSTRUCTION_CAPTURE of K : entity is \"01\";
  attribute BOUNDARY_LENGTH of K : entity is 3;
  attribute BOUNDARY_REGISTER of K : entity is
    \"0 (BC_1, Q, output3, X, 1, 0, Z), 1 (BC_1, *, control, 0), 2 (BC_1, D, input, X)\";
end K;
";

/// The bytes of a play of one scan, without the `Q` at its end: edges, a wait, shifts with TDO asked for.
const SENT: &[u8] = b"r262626262600426260404040404040404041R53R726040";

/// The bytes that bring a board from wherever it is to where it shifts data.
const TO_SHIFT: &[u8] = b"r26262626260042604040";

/// The bytes that bring a board from there to IDLE, and waits there.
const TO_IDLE: &[u8] = b"26260404";

const IDLE: &[u8] = b"0404040404040404040404040404040404040404040404040404040404040404";

/// A player gives out bytes, a board takes them one by one, and the player takes each answer.
fn move_bytes(player: &mut Player, board: &mut Board) {
    let mut buffer = [0; PIECE];
    for _ in 0..ROUNDS {
        let count = player.next_bytes(&mut buffer);
        for byte in &buffer[..count] {
            if let Reply::Answer(answer) = board.byte(*byte) {
                player.answers(&[answer]);
            }
        }
    }
}

/// A board is served by a reader, and writes its answers to standard output.
fn serve_bytes(rt: &HostRuntime, board: &mut Board) {
    for _ in 0..ROUNDS {
        let mut reader = Counted::new(SENT);
        let mut writer = Counted::new(Plain(io::writer(rt)));
        if reader.failures() == 0 && writer.failures() == 0 {
            serve_over(&mut reader, &mut writer, board, u64::MAX);
        }
    }
}

/// A player shows bytes before it gives them out, and takes the answers to them together. Answers how many it gave out.
fn show_and_take(player: &mut Player, board: &mut Board) -> u64 {
    let mut buffer = [0; PIECE];
    let mut given: u64 = 0;
    for _ in 0..ROUNDS {
        let count = player.show_ahead(&mut buffer);
        player.give_out(&mut buffer[..count]);
        given = given.wrapping_add(count as u64);
        take(board, &buffer[..count], Some(&mut *player));
    }
    given
}

/// A board takes bytes together, and a player, if there is one, the answers to them.
fn take(board: &mut Board, bytes: &[u8], player: Option<&mut Player>) {
    let mut answers = [0; PIECE];
    if bytes.len() > answers.len() {
        return;
    }
    let taken = take_bytes(board, bytes, &mut answers);
    if let Some(player) = player {
        player.answers_each(&answers[..taken.answers]);
    }
}

/// A board takes bytes together, 64 cycles that shift at once, and bytes at once that only move TCK. Answers how many
/// these were.
fn move_runs(board: &mut Board) -> u64 {
    let mut idle: u64 = 0;
    for round in 0..ROUNDS {
        take(board, SENT, None);
        take(board, TO_SHIFT, None);
        if board.shifts() {
            board.shift_word(round as u64, PIECE);
            take(board, TO_IDLE, None);
            idle = idle.wrapping_add(board.idle(IDLE) as u64);
        }
    }
    idle
}

/// Bytes and answers go through the pipes between a player and a board.
fn run_events(joined: &mut Joined) {
    let events = [Event::Put(PIECE), Event::Serve(PIECE), Event::Take(PIECE)];
    for _ in 0..ROUNDS {
        joined.run(&events);
    }
}
