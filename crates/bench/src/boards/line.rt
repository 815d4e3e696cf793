//! Rows of a line of devices whose cores pass on what they see: what the last one drives goes along all to the first.

use crate::boards::Probe;
use crate::rows::{Row, Unit, print_row};
use jt_board::Board;
use std::alloc::{AllocError, Global};
use std::io;

/// How many devices stand in the line: the first, nearest TDO, reads what the last one drives.
const DEVICES: usize = 25;

/// The bits that each passes on, by as many strings: 1,000 in all.
const WIDTH: usize = 40;

/// The updates of a round, each behind a capture and so many shifts.
const UPDATES: usize = 2_000;

const SHIFTS: usize = 8;

pub fn rows(rt: &HostRuntime) -> io::Result<()> {
    let Some(mut board) = line(rt.alloc())? else {
        return rt.println("bench: a line is refused");
    };
    print_row(rt, "follow_1000", Unit::Byte, || Ok(passed_on(&mut board)))
}

/// The devices in a line, the outputs of each on the inputs of the one before it.
fn line(alloc: Global) -> Result<Option<Board>, AllocError> {
    let mut text = String::new(alloc);
    let strings = strings(alloc)?;
    for i in 0..DEVICES {
        let device = format!(in alloc; "[[device]]\nname = \"U{i}\"\nbsdl = \"w\"\nfollow = [")?;
        text.push_str(device.as_str())?;
        text.push_str(strings.as_str())?;
        text.push_str("]\n")?;
    }
    for i in 1..DEVICES {
        let before = i - 1;
        for k in 0..WIDTH {
            let net = format!(in alloc;
                "[[net]]\nname = \"N{i}_{k}\"\npins = [\"U{i}.Q({k})\", \"U{before}.D({k})\"]\n"
            )?;
            text.push_str(net.as_str())?;
        }
    }
    let device = device(alloc)?;
    Ok(Board::from_text(alloc, text.as_bytes(), &[("w", device.as_bytes())]).ok())
}

/// Each output follows its input.
fn strings(alloc: Global) -> Result<String, AllocError> {
    let mut text = String::new(alloc);
    for k in 0..WIDTH {
        let string = format!(in alloc; "\"Q({k}) = D({k})\", ")?;
        text.push_str(string.as_str())?;
    }
    Ok(text)
}

/// The description of a device: its inputs at the lower cells, the last of them first, and its outputs at the upper.
fn device(alloc: Global) -> Result<String, AllocError> {
    let last = WIDTH - 1;
    let cells = 2 * WIDTH;
    let mut text = format!(in alloc;
        "entity W is
  port (TDI, TMS, TCK : in bit; TDO : out bit; Q : out bit_vector(0 to {last}); D : in bit_vector(0 to {last}));
  attribute TAP_SCAN_IN of TDI : signal is true;
  attribute TAP_SCAN_MODE of TMS : signal is true;
  attribute TAP_SCAN_OUT of TDO : signal is true;
  attribute TAP_SCAN_CLOCK of TCK : signal is (10.0e6, BOTH);
  attribute INSTRUCTION_LENGTH of W : entity is 2;
  attribute INSTRUCTION_OPCODE of W : entity is \"BYPASS (11), EXTEST (00), SAMPLE (01)\";
  attribute INSTRUCTION_CAPTURE of W : entity is \"01\";
  attribute BOUNDARY_LENGTH of W : entity is {cells};
  attribute BOUNDARY_REGISTER of W : entity is
    "
    )?;
    for cell in 0..WIDTH {
        let bit = last - cell;
        let row = format!(in alloc; "\"{cell} (BC_4, D({bit}), input, X),\" & ")?;
        text.push_str(row.as_str())?;
    }
    for bit in 0..last {
        let cell = WIDTH + bit;
        let row = format!(in alloc; "\"{cell} (BC_1, Q({bit}), output2, X),\" & ")?;
        text.push_str(row.as_str())?;
    }
    let cell = WIDTH + last;
    let row = format!(in alloc; "\"{cell} (BC_1, Q({last}), output2, X)\";\nend W;\n")?;
    text.push_str(row.as_str())?;
    Ok(text)
}

/// To RESET; then SAMPLE into the first device, EXTEST into the last, and BYPASS into those between.
fn under_test(board: &mut Board) -> Probe<'_> {
    let mut probe = Probe {
        board,
        bytes: 0,
        check: 0,
    };
    probe.walk(b"1111101100");
    probe.cycle(false, true);
    probe.cycle(false, false);
    for _ in 2..DEVICES {
        probe.cycle(false, true);
        probe.cycle(false, true);
    }
    probe.cycle(false, false);
    probe.walk(b"111");
    probe
}

/// So many times a capture, eight bits shifted, and an update that goes along the line.
fn passed_on(board: &mut Board) -> Row {
    let mut probe = under_test(board);
    for i in 0..UPDATES {
        probe.walk(b"00");
        for k in 1..SHIFTS {
            probe.asked(false, (i + k) % 3 == 0);
        }
        probe.asked(true, i % 5 == 0);
        probe.walk(b"11");
    }
    probe.row()
}
