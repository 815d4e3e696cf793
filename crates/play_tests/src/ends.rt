//! Ends that bytes come from and go to. What no clause says: that the calls succeed, how many calls `Plain` makes, and
//! what sockets do.
ghost use Rattle.std.specs.Prelude.{⊤};

use byte_streams::{Both, Broken, Counted, End, Plain, Sink, Source, put_all};
use std::alloc::Global;
use std::io;
use std::io::{Error, ErrorKind, Read, Write};
use std::net::{Net, OpenListener, OpenStream, TcpListener, TcpStream};
use std::process::Abort;
use std::test::Fail;

/// How a call of a faulty reader or writer goes.
#[derive(Clone, Copy)]
enum Call {
    Moves(usize),
    Fails,
}

/// A reader and writer whose first calls are set beforehand, and whose later ones fail. It gives zeroes, and counts its
/// calls.
#[derive(Drop)]
struct Faulty {
    calls: &'static [Call],
    made: usize,
}

impl Faulty {
    fn new(calls: &'static [Call]) -> Self {
        Faulty { calls, made: 0 }
    }

    /// How many bytes the next call would move; `None` where it fails.
    fn next_call(&mut self) -> Option<usize> {
        let call = self.calls.get(self.made).copied();
        self.made = self.made.saturating_add(1);
        match call {
            Some(Call::Moves(n)) => Some(n),
            _ => None,
        }
    }
}

impl Read for Faulty {
    fn read(&mut self, buffer: &mut [u8]) -> io::Result<usize> {
        match self.next_call() {
            Some(n) => Ok(n.min(buffer.len())),
            None => Err(Error::from(ErrorKind::ConnectionReset)),
        }
    }
}

impl Source for Faulty {
    ghost hears = { λ _ _ _ _. ⊤ };

    fn hear(&mut self, buffer: &mut [u8]) -> io::Result<usize> {
        self.read(buffer)
    }
}

impl Write for Faulty {
    fn write(&mut self, piece: &[u8]) -> io::Result<usize> {
        match self.next_call() {
            Some(n) => Ok(n.min(piece.len())),
            None => Err(Error::from(ErrorKind::BrokenPipe)),
        }
    }

    fn flush(&mut self) -> io::Result<()> {
        match self.next_call() {
            Some(_) => Ok(()),
            None => Err(Error::from(ErrorKind::BrokenPipe)),
        }
    }
}

impl Sink for Faulty {
    ghost puts = { λ _ _ _ _. ⊤ };

    ghost flushes = { λ _ _ _. ⊤ };

    fn put(&mut self, piece: &[u8]) -> io::Result<usize> {
        self.write(piece)
    }

    fn put_through(&mut self) -> io::Result<()> {
        self.flush()
    }
}

/// How the reads of a byte go, and behind each of them whether the connection is lost, and by an end of input.
const READS: &[(&[Call], &[(u32, bool)])] = &[
    (
        &[Call::Moves(1), Call::Moves(0), Call::Fails, Call::Moves(1)],
        &[(0, false), (1, true), (1, true), (1, true)],
    ),
    (
        &[Call::Moves(1), Call::Fails, Call::Moves(0), Call::Moves(1)],
        &[(0, false), (1, false), (1, false), (1, false)],
    ),
];

#[test]
fn at_end_is_whether_the_first_loss_was_the_end_of_input(rt: HostRuntime) {
    for (calls, told) in READS {
        let mut byte = [0];
        let mut input = Counted::new(Faulty::new(calls));
        for wanted in *told {
            let _ = input.hear(&mut byte);
            assert_eq!(rt; (input.failures(), input.at_end()), *wanted);
        }
    }
}

/// How the calls go, of which one is for each piece that is written of "abc" and one for the flush behind it, how many
/// are made, and whether all is written.
const PIECES: &[(&[Call], usize, bool)] = &[
    (
        &[
            Call::Moves(1),
            Call::Moves(1),
            Call::Moves(1),
            Call::Moves(0),
        ],
        4,
        true,
    ),
    (&[Call::Moves(2), Call::Moves(9), Call::Moves(0)], 3, true),
    (
        &[Call::Moves(1), Call::Moves(1), Call::Fails, Call::Moves(1)],
        3,
        false,
    ),
    (
        &[
            Call::Moves(1),
            Call::Moves(0),
            Call::Moves(1),
            Call::Moves(1),
        ],
        2,
        false,
    ),
    (
        &[Call::Fails, Call::Moves(1), Call::Moves(1), Call::Moves(1)],
        1,
        false,
    ),
];

/// `Plain` promises nothing of a call's relation, so its calls are counted: each write and each flush is one of the
/// writer within, and the first loss is the last of them.
#[test]
fn plain_makes_one_call_of_each(rt: HostRuntime) {
    for (calls, made, is_whole) in PIECES {
        let mut out = Counted::new(Plain(Faulty::new(calls)));
        let written = put_all(&mut out, b"abc");
        assert_eq!(rt; written.is_ok(), *is_whole);
        if written.is_ok() {
            assert!(rt; out.put_through().is_ok());
        }
        assert_eq!(rt; out.failures(), u32::from(!*is_whole));
        let Plain(inner) = out.into_inner();
        assert_eq!(rt; inner.made, *made);
    }
}

#[test]
fn memory_and_both_hand_on_their_bytes(rt: HostRuntime) {
    let reader: &[u8] = b"01";
    let writer = Vec::new(rt.alloc());
    let mut end = Counted::new(Both { reader, writer });
    assert_eq!(rt; put_all(&mut end, b"RQ"), Ok(()));
    let mut buffer = [b'-'; 4];
    assert_eq!(rt; end.hear(&mut buffer).ok(), Some(2));
    assert_eq!(rt; buffer, *b"01--");
    assert!(rt; end.put_through().is_ok());
    assert_eq!(rt; end.failures(), 0);
    assert_eq!(rt; end.hear(&mut buffer).ok(), Some(0));
    assert!(rt; end.at_end());
    let Both { reader, writer } = end.into_inner();
    assert!(rt; reader.is_empty());
    assert_eq!(rt; writer.as_slice(), b"RQ".as_slice());
}

#[test]
fn plain_hands_on_what_std_reads_and_writes(rt: HostRuntime) {
    let mut out = Counted::new(Plain(Vec::new(rt.alloc())));
    assert_eq!(rt; put_all(&mut out, b"PASS\n"), Ok(()));
    assert!(rt; out.put_through().is_ok());
    let Plain(bytes) = out.into_inner();
    assert_eq!(rt; bytes.as_slice(), b"PASS\n".as_slice());

    let text: &[u8] = b"ab";
    let mut byte = [0];
    let mut input = Counted::new(Plain(text));
    assert_eq!(rt; input.hear(&mut byte).ok(), Some(1));
    assert_eq!(rt; byte[0], b'a');
}

/// Writes a byte at one end, and reads it at the other.
fn cross<T: End>(from: &mut T, to: &mut T) -> io::Result<u8> {
    let mut byte = [0];
    from.put(b"R")?;
    from.put_through()?;
    to.hear(&mut byte)?;
    Ok(byte[0])
}

fn streams<R: Net<Listener = TcpListener, Stream = TcpStream>>(
    rt: &R,
) -> io::Result<(TcpStream, TcpStream)> {
    let listener = TcpListener::bind(rt, "127.0.0.1:0")?;
    let address = listener.local_addr()?;
    let player = TcpStream::connect(rt, address)?;
    let (board, _peer) = listener.accept()?;
    Ok((player, board))
}

#[test]
fn a_byte_crosses_a_socket(rt: HostRuntime) -> Result<(), Fail> {
    let (player, board) = streams(&rt)?;
    let (mut player, mut board) = (Counted::new(player), Counted::new(board));
    assert_eq!(rt; cross(&mut player, &mut board)?, b'R');
    assert_eq!(rt; cross(&mut board, &mut player)?, b'R');
    assert_eq!(rt; player.failures() + board.failures(), 0);
    Ok(())
}

#[test]
fn broken_says_what_is_lost(rt: HostRuntime) -> Result<(), Fail> {
    let text = format!(in rt.alloc(); "{}", Broken)?;
    assert_eq!(rt; text.as_str(), "the output could not be written");
    Ok(())
}
