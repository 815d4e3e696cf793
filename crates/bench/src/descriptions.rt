//! Device descriptions of 4 MiB, and the devices that they say.
use crate::programs::milliseconds;
use crate::rows::{Row, Unit, print_row};
use bsdl_device::Device;
use std::alloc::{AllocError, Global};
use std::io::{self, Read};
use std::time::Instant;

/// How large a text may be.
const TEXT_LIMIT: usize = 4 * 1024 * 1024;

/// The ports beside the TAP's, by the numbers in their names, and the cells, each of which sees one of them.
const FIRST_PORT: usize = 1000;

const PORTS: usize = 8000;

const CELLS: usize = 4096;

/// How many bytes long names have before their numbers.
const LONG: usize = 490;

const HEAD: &str = "entity W is
  port (TDI, TMS, TCK : in bit; TDO : out bit";

const ATTRIBUTES: &str = ");
  attribute TAP_SCAN_IN of TDI : signal is true;
  attribute TAP_SCAN_MODE of TMS : signal is true;
  attribute TAP_SCAN_OUT of TDO : signal is true;
  attribute TAP_SCAN_CLOCK of TCK : signal is (10.0e6, BOTH);
  attribute INSTRUCTION_LENGTH of W : entity is 2;
  attribute INSTRUCTION_OPCODE of W : entity is \"BYPASS (11), EXTEST (00), SAMPLE (01)\";
  attribute INSTRUCTION_CAPTURE of W : entity is \"01\";
";

/// What is passed over.
const CONSTANT: &str = "  constant Limit : integer := 12;\n";

pub fn rows(rt: &HostRuntime) -> io::Result<()> {
    let alloc = rt.alloc();
    let many = text_of_names(alloc, "P", CELLS)?;
    print_row(rt, "bsdl_read", Unit::Byte, || read(alloc, many.as_str()))?;
    let mut start = String::new(alloc);
    for _ in 0..LONG {
        start.push('N')?;
    }
    let alike = text_of_names(alloc, start.as_str(), 1)?;
    print_row(rt, "bsdl_alike", Unit::Byte, || read(alloc, alike.as_str()))
}

/// A description whose names of ports begin alike, with so many cells, filled up with what is passed over.
fn text_of_names(alloc: Global, start: &str, cells: usize) -> Result<String, AllocError> {
    let mut text = String::with_capacity(alloc, TEXT_LIMIT)?;
    text.push_str(HEAD)?;
    for number in FIRST_PORT..FIRST_PORT + PORTS {
        add_port(alloc, &mut text, start, number)?;
    }
    text.push_str(ATTRIBUTES)?;
    add_cells(alloc, &mut text, start, cells)?;
    fill_up(&mut text)?;
    text.push_str("end W;\n")?;
    Ok(text)
}

fn add_port(
    alloc: Global,
    text: &mut String,
    start: &str,
    number: usize,
) -> Result<(), AllocError> {
    let port = format!(in alloc; "; {start}{number} : in bit")?;
    text.push_str(port.as_str())
}

fn add_cells(
    alloc: Global,
    text: &mut String,
    start: &str,
    cells: usize,
) -> Result<(), AllocError> {
    let len = format!(in alloc; "  attribute BOUNDARY_LENGTH of W : entity is {cells};\n")?;
    text.push_str(len.as_str())?;
    text.push_str("  attribute BOUNDARY_REGISTER of W : entity is\n    \"\"")?;
    for cell in 0..cells {
        add_cell(alloc, text, start, cell)?;
    }
    text.push_str(";\n")
}

fn add_cell(alloc: Global, text: &mut String, start: &str, cell: usize) -> Result<(), AllocError> {
    let port = FIRST_PORT.saturating_add(cell);
    let row = format!(in alloc; " &\n    \"{cell} (BC_4, {start}{port}, input, X),\"")?;
    text.push_str(row.as_str())
}

/// Adds what is passed over, and leaves room for the end.
fn fill_up(text: &mut String) -> Result<(), AllocError> {
    let room = TEXT_LIMIT.saturating_sub(text.len());
    let times = room.checked_div(CONSTANT.len()).unwrap_or(0);
    for _ in 1..times {
        text.push_str(CONSTANT)?;
    }
    Ok(())
}

/// The device of a text: its port bits and which of them its cells see.
fn read(alloc: Global, text: &str) -> Result<Row, AllocError> {
    let check = match bsdl::read(alloc, text.as_bytes()) {
        Ok(device) => check_of(&device),
        Err(_) => 0,
    };
    Ok(Row {
        count: text.len(),
        check,
    })
}

fn check_of(device: &Device) -> u64 {
    let mut check = device.port_count() as u64;
    let mut number: u64 = 0;
    for cell in device.cells() {
        number = number.wrapping_add(1);
        if let Some(port) = cell.port {
            check = check.wrapping_add(number.wrapping_mul((port as u64).wrapping_add(1)));
        }
    }
    check
}

/// Reads a description from standard input, and tells what it says, and the milliseconds that `read` took.
pub fn tell_device(rt: &HostRuntime) -> io::Result<()> {
    let mut text = Vec::new(rt.alloc());
    rt.reader()
        .take(TEXT_LIMIT as u64 + 1)
        .read_to_end(&mut text)?;
    let start = Instant::now(rt)?;
    let found = bsdl::read(rt.alloc(), &text);
    let time = milliseconds(rt, &start);
    match found {
        Ok(device) => {
            let (ports, cells) = (device.port_count(), device.cells().len());
            rt.println(format_args!("{ports} port bits {cells} cells {time} ms"))
        }
        Err(fault) => rt.println(format_args!("{fault} {time} ms")),
    }
}
