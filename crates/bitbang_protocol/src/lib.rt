//! The bytes of OpenOCD's remote_bitbang protocol.
#![tactic(auto)]

ghost use Rattle.std.specs.Prelude.{◌≡◌, map};
ghost use Rattle.bitbang_protocol.specs.Protocol as spec;
ghost use Rattle.bitbang_protocol.specs.Protocol.{DecodesWhatIsEncoded, cycle_messages};

use arrayvec::ArrayVec;

/// What one byte from the player says to the board.
#[derive(Debug, Clone, Copy, PartialEq, Eq)]
pub enum Message {
    /// `0` to `7`: the levels of TCK, TMS and TDI.
    Write { tck: bool, tms: bool, tdi: bool },
    /// `R`: asks for the level of TDO.
    Ask,
    /// `Q`: ends the play.
    Quit,
    /// `B` and `b`: a light on and off.
    Light(bool),
    /// `r` to `u`: whether TRST and SRST are asserted.
    Lines { trst: bool, srst: bool },
}

/// One cycle of TCK: the levels of TMS and TDI during it, and whether TDO is read in it.
#[derive(Debug, Clone, Copy, PartialEq, Eq, Default)]
pub struct Cycle {
    /// The level of TMS.
    pub tms: bool,
    /// The level of TDI.
    pub tdi: bool,
    /// Whether TDO is asked for while TCK is low, before the rising edge.
    pub read: bool,
}

/// The byte of a message.
pub fn encode(message: Message) -> u8
    ensures { result ≡ spec.encode message }
{
    match message {
        Message::Write { tck, tms, tdi } => {
            b'0' + 4 * u8::from(tck) + 2 * u8::from(tms) + u8::from(tdi)
        }
        Message::Ask => b'R',
        Message::Quit => b'Q',
        Message::Light(true) => b'B',
        Message::Light(false) => b'b',
        Message::Lines { trst, srst } => b'r' + 2 * u8::from(trst) + u8::from(srst),
    }
}

/// The message that a byte spells; `None` exactly for a byte that is not in the table.
pub fn decode(byte: u8) -> Option<Message>
    ensures { result ≡ spec.decode byte }
{
    match byte {
        b'0' => Some(written(false, false, false)),
        b'1' => Some(written(false, false, true)),
        b'2' => Some(written(false, true, false)),
        b'3' => Some(written(false, true, true)),
        b'4' => Some(written(true, false, false)),
        b'5' => Some(written(true, false, true)),
        b'6' => Some(written(true, true, false)),
        b'7' => Some(written(true, true, true)),
        b'R' => Some(Message::Ask),
        b'Q' => Some(Message::Quit),
        b'B' => Some(Message::Light(true)),
        b'b' => Some(Message::Light(false)),
        b'r' => Some(lines(false, false)),
        b's' => Some(lines(false, true)),
        b't' => Some(lines(true, false)),
        b'u' => Some(lines(true, true)),
        _ => None,
    }
}

fn written(tck: bool, tms: bool, tdi: bool) -> Message
    ensures { result ≡ Message.Write tck tms tdi }
{
    Message::Write { tck, tms, tdi }
}

fn lines(trst: bool, srst: bool) -> Message
    ensures { result ≡ Message.Lines trst srst }
{
    Message::Lines { trst, srst }
}

/// The bytes of one cycle: TCK low, `R` where the cycle reads, TCK high. So TDO is read before the rising edge.
pub fn cycle_bytes(cycle: Cycle) -> ArrayVec<u8, 3>
    ensures { result.items ≡ map spec.encode (cycle_messages cycle) }
{
    let Cycle { tms, tdi, read } = cycle;
    let mut bytes = ArrayVec::new();
    bytes.push(encode(written(false, tms, tdi)));
    if read {
        bytes.push(encode(Message::Ask));
    }
    bytes.push(encode(written(true, tms, tdi)));
    bytes
}

/// The byte that answers an `R`: `0` or `1`.
pub fn answer(bit: bool) -> u8
    ensures { result ≡ spec.answer bit }
{
    if bit { b'1' } else { b'0' }
}

/// The bit that an answer's byte tells; `None` exactly for a byte other than `0` and `1`.
pub fn read_answer(byte: u8) -> Option<bool>
    ensures { result ≡ spec.read_answer byte }
{
    match byte {
        b'0' => Some(false),
        b'1' => Some(true),
        _ => None,
    }
}

/// Every message is the one that its byte spells.
pub fn decoding_undoes_encoding()
    ensures { DecodesWhatIsEncoded }
{}
