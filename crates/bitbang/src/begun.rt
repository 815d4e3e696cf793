//! A cycle of which some bytes are out.

ghost use Rattle.std.specs.Prelude.{◌≡◌};
ghost use Rattle.bitbang_protocol.specs.Protocol.{encode};
ghost use Rattle.bitbang_protocol.specs.declared.Message.TheVariants.{Write};

use bitbang_protocol::{Cycle, Message};

/// A cycle, and how many of its bytes are out.
#[derive(Debug, Clone, Copy, PartialEq, Eq)]
pub(crate) struct Begun {
    pub(crate) cycle: Cycle,
    pub(crate) out: u8,
}

impl Begun {
    ghost use Rattle.std.specs.Prelude.{◌≡◌, ◌<◌, [], length, slice_get, OnSome};
    ghost use Rattle.bitbang.specs.Left.{rest};

    /// A cycle whose bytes are all out.
    pub(crate) fn over() -> Begun
        ensures { rest result ≡ [] }
    {
        Begun {
            cycle: Cycle::default(),
            out: 3,
        }
    }

    /// The next byte of the cycle, if there is one.
    pub(crate) fn peek(&self) -> Option<u8>
        ensures byte { result ≡ slice_get (rest self.now) 0 }
        ensures some { OnSome result (self.now.out < 3) }
    {
        let Cycle { tms, tdi, read } = self.cycle;
        match (self.out, read) {
            (0, _) => Some(written(false, tms, tdi)),
            (1, true) => Some(bitbang_protocol::encode(Message::Ask)),
            (1, false) | (2, true) => Some(written(true, tms, tdi)),
            _ => None,
        }
    }

    /// How many bytes are left.
    pub(crate) fn left(&self) -> u64
        ensures { result ≡ length (rest self.now) }
    {
        let all = 2 + u64::from(self.cycle.read);
        all.saturating_sub(u64::from(self.out))
    }
}

/// The byte of written lines.
fn written(tck: bool, tms: bool, tdi: bool) -> u8
    ensures { result ≡ encode (Write tck tms tdi) }
{
    bitbang_protocol::encode(Message::Write { tck, tms, tdi })
}
