//! Rows of the benchmark of boards of described devices with nets, byte by byte.
use crate::rows::{Row, Unit, print_row};
use jt_board::{Board, Reply};
use std::alloc::{AllocError, Global};
use std::io;
use std::time::Instant;

mod line;

/// Eight outputs that one control cell turns off, and eight inputs.
const DEVICE: &[u8] = b"entity W is
  port (TDI, TMS, TCK : in bit; TDO : out bit; Q : out bit_vector(0 to 7); D : in bit_vector(0 to 7));
  attribute TAP_SCAN_IN of TDI : signal is true;
  attribute TAP_SCAN_MODE of TMS : signal is true;
  attribute TAP_SCAN_OUT of TDO : signal is true;
  attribute TAP_SCAN_CLOCK of TCK : signal is (10.0e6, BOTH);
  attribute INSTRUCTION_LENGTH of W : entity is 2;
  attribute INSTRUCTION_OPCODE of W : entity is \"BYPASS (11), EXTEST (00), SAMPLE (01)\";
  attribute INSTRUCTION_CAPTURE of W : entity is \"01\";
  attribute BOUNDARY_LENGTH of W : entity is 17;
  attribute BOUNDARY_REGISTER of W : entity is
    \"0 (BC_4, D(0), input, X), 1 (BC_4, D(1), input, X), 2 (BC_4, D(2), input, X), 3 (BC_4, D(3), input, X),\" &
    \"4 (BC_4, D(4), input, X), 5 (BC_4, D(5), input, X), 6 (BC_4, D(6), input, X), 7 (BC_4, D(7), input, X),\" &
    \"8 (BC_1, *, control, 0), 9 (BC_1, Q(0), output3, X, 8, 0, Z), 10 (BC_1, Q(1), output3, X, 8, 0, Z),\" &
    \"11 (BC_1, Q(2), output3, X, 8, 0, Z), 12 (BC_1, Q(3), output3, X, 8, 0, Z),\" &
    \"13 (BC_1, Q(4), output3, X, 8, 0, Z), 14 (BC_1, Q(5), output3, X, 8, 0, Z),\" &
    \"15 (BC_1, Q(6), output3, X, 8, 0, Z), 16 (BC_1, Q(7), output3, X, 8, 0, Z)\";
end W;
";

/// Sixty-four pins, and one cell without a pin.
const PINS_DEVICE: &[u8] = b"entity X is
  port (TDI, TMS, TCK : in bit; TDO : out bit; P : linkage bit_vector(0 to 63));
  attribute TAP_SCAN_IN of TDI : signal is true;
  attribute TAP_SCAN_MODE of TMS : signal is true;
  attribute TAP_SCAN_OUT of TDO : signal is true;
  attribute TAP_SCAN_CLOCK of TCK : signal is (10.0e6, BOTH);
  attribute INSTRUCTION_LENGTH of X : entity is 2;
  attribute INSTRUCTION_OPCODE of X : entity is \"BYPASS (11), EXTEST (00)\";
  attribute INSTRUCTION_CAPTURE of X : entity is \"01\";
  attribute BOUNDARY_LENGTH of X : entity is 1;
  attribute BOUNDARY_REGISTER of X : entity is \"0 (BC_1, *, internal, X)\";
end X;
";

/// The pins of one such device, each on a net of its own.
const PINS: usize = 64;

/// How many devices a board has that is made: by the earlier limit, and by the limit.
const MADE: &[usize] = &[32, 256];

/// The bits of a bus from a device to the next.
const BUS: usize = 8;

/// The bits that are shifted in a round, of three bytes each.
const SHIFTS: usize = 100_000;

/// The updates of a round: each captures the levels, and shifts one bit.
const UPDATES: usize = 10_000;

/// How many devices a ring has, and the names of its rows.
const RINGS: &[(usize, &str, &str)] = &[
    (1, "shift_1", "update_1"),
    (8, "shift_8", "update_8"),
    (32, "shift_32", "update_32"),
    (256, "shift_256", "update_256"),
];

pub fn rows(rt: &HostRuntime) -> io::Result<()> {
    for (devices, shift, update) in RINGS {
        rows_of_ring(rt, *devices, shift, update)?;
    }
    line::rows(rt)
}

/// Prints how long boards of many devices and nets take to be made.
pub fn tell(rt: &HostRuntime) -> io::Result<()> {
    for devices in MADE {
        let nets = PINS.saturating_mul(*devices);
        let text = pins_board(rt.alloc(), *devices)?;
        let start = Instant::now(rt)?;
        let made = Board::from_text(rt.alloc(), text.as_bytes(), &[("x", PINS_DEVICE)]);
        let took = start.elapsed(rt)?.as_micros();
        let told = if made.is_ok() { "made" } else { "refused" };
        rt.println(format_args!(
            "a board of {devices} devices and {nets} nets: {told} in {took} us"
        ))?;
    }
    Ok(())
}

/// A board file of so many devices, each of whose pins is on a net of its own.
fn pins_board(alloc: Global, devices: usize) -> Result<String, AllocError> {
    let mut text = String::new(alloc);
    for i in 0..devices {
        let device = format!(in alloc; "[[device]]\nname = \"U{i}\"\nbsdl = \"x\"\n")?;
        text.push_str(device.as_str())?;
    }
    for i in 0..devices {
        for k in 0..PINS {
            let net = format!(in alloc;
                "[[net]]\nname = \"N{i}_{k}\"\npins = [\"U{i}.P({k})\"]\n"
            )?;
            text.push_str(net.as_str())?;
        }
    }
    Ok(text)
}

fn rows_of_ring(rt: &HostRuntime, devices: usize, shift: &str, update: &str) -> io::Result<()> {
    let Some(mut board) = ring(rt.alloc(), devices)? else {
        return rt.println("bench: a ring is refused");
    };
    print_row(rt, shift, Unit::Byte, || Ok(shifted(&mut board)))?;
    print_row(rt, update, Unit::Byte, || Ok(updated(&mut board)))
}

/// So many devices in a ring, the outputs of each on the inputs of the next.
fn ring(alloc: Global, devices: usize) -> Result<Option<Board>, AllocError> {
    let mut text = String::new(alloc);
    for i in 0..devices {
        let device = format!(in alloc; "[[device]]\nname = \"U{i}\"\nbsdl = \"w\"\n")?;
        text.push_str(device.as_str())?;
    }
    for i in 0..devices {
        let next = if i + 1 < devices { i + 1 } else { 0 };
        for k in 0..BUS {
            let net = format!(in alloc;
                "[[net]]\nname = \"N{i}_{k}\"\npins = [\"U{i}.Q({k})\", \"U{next}.D({k})\"]\n"
            )?;
            text.push_str(net.as_str())?;
        }
    }
    Ok(Board::from_text(alloc, text.as_bytes(), &[("w", DEVICE)]).ok())
}

/// The board, with what came out of it as a number.
#[derive(Drop)]
struct Probe<'a> {
    board: &'a mut Board,
    bytes: usize,
    check: u64,
}

impl<'a> Probe<'a> {
    /// Hands a byte to the board.
    fn hand(&mut self, byte: u8) {
        self.bytes = self.bytes.wrapping_add(1);
        if self.board.byte(byte) == Reply::Answer(b'1') {
            self.check = self.check.wrapping_add(self.bytes as u64);
        }
    }

    /// A cycle: TCK low, and high.
    fn cycle(&mut self, tms: bool, tdi: bool) {
        let levels = 2 * u8::from(tms) + u8::from(tdi);
        self.hand(b'0' + levels);
        self.hand(b'4' + levels);
    }

    /// A cycle that asks for TDO.
    fn asked(&mut self, tms: bool, tdi: bool) {
        let levels = 2 * u8::from(tms) + u8::from(tdi);
        self.hand(b'0' + levels);
        self.hand(b'R');
        self.hand(b'4' + levels);
    }

    fn walk(&mut self, path: &[u8]) {
        for tms in path {
            self.cycle(*tms == b'1', false);
        }
    }

    fn row(&self) -> Row {
        Row {
            count: self.bytes,
            check: self.check,
        }
    }
}

/// To RESET, and EXTEST into every device: an instruction stage has two bits.
fn under_extest(board: &mut Board) -> Probe<'_> {
    let devices = board.snapshot().devices();
    let mut probe = Probe {
        board,
        bytes: 0,
        check: 0,
    };
    probe.walk(b"1111101100");
    for _ in 1..devices {
        probe.walk(b"00");
    }
    probe.walk(b"0111");
    probe
}

/// From the shift of the boundary registers on, so many bits.
fn shifted(board: &mut Board) -> Row {
    let mut probe = under_extest(board);
    probe.walk(b"00");
    for i in 0..SHIFTS {
        probe.asked(false, i % 3 == 0);
    }
    probe.row()
}

/// So many times a capture, one bit shifted, and an update.
fn updated(board: &mut Board) -> Row {
    let mut probe = under_extest(board);
    for i in 0..UPDATES {
        probe.walk(b"00");
        probe.asked(true, i % 3 == 0);
        probe.walk(b"11");
    }
    probe.row()
}
