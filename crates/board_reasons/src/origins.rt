//! Where a bit that comes out of a scan stood when the scan began: in a register of a device, as it stood captured, or
//! among the bits that went in. And the lines that say so.
use pin_nets::Level;
use scan_vectors::Part;

pub mod laws;

/// Where a bit that comes out of a scan stood once the registers had captured.
#[derive(Debug, Clone, Copy, PartialEq, Eq)]
pub enum Origin {
    /// In the selected register of a device. Devices are counted from 0, the one nearest TDO; bits from 0, the one
    /// nearest TDO.
    Register {
        /// Which device.
        device: usize,
        /// Which bit of its register.
        bit: usize,
    },
    /// Among the bits that go in at TDI, counted from 0: it has passed the whole chain.
    Tdi(usize),
}

/// A net with a name, by its number on the board, and its level.
#[derive(Debug, Clone, Copy, PartialEq, Eq)]
pub struct NetLevel {
    /// Which net.
    pub net: usize,
    /// What it shows.
    pub level: Level,
}

/// What a boundary cell captured.
#[derive(Debug, Clone, Copy, PartialEq, Eq)]
pub enum Captured {
    /// The bit that the core of its device has for it.
    Core,
    /// Its own bit of the update stage.
    Update,
    /// What its port sees: the net of the port, if that is on one with a name, with the level before the capture.
    Sight(Option<NetLevel>),
}

/// The instruction by which a register is selected.
#[derive(Debug, Clone, Copy, PartialEq, Eq)]
pub enum SelectedBy {
    /// BYPASS, which all ones are also where no row says so.
    AllOnes,
    /// That of this row of the description's opcodes, counted from 0.
    Row(usize),
    /// None: the opcode stands in no row.
    NoRow,
}

/// What held a bit that came out of a scan. Devices are counted from 0, the one nearest TDO; bits and cells from 0, the
/// one nearest TDO.
#[derive(Debug, Clone, Copy, PartialEq, Eq)]
pub enum Holder {
    /// The bypass register of a device.
    Bypass {
        /// Which device.
        device: usize,
        /// The instruction that had selected it.
        by: SelectedBy,
    },
    /// The identification register of a device.
    Identification {
        /// Which device.
        device: usize,
        /// Which bit.
        bit: usize,
    },
    /// A user register of a device.
    User {
        /// Which device.
        device: usize,
        /// Which of its user registers, in the order in which its description first names them.
        register: usize,
        /// Which bit.
        bit: usize,
    },
    /// The instruction register of a device.
    Instruction {
        /// Which device.
        device: usize,
        /// Which bit.
        bit: usize,
    },
    /// A boundary cell of a device.
    Cell {
        /// Which device.
        device: usize,
        /// Which cell.
        cell: usize,
        /// What it captured.
        captured: Captured,
    },
    /// The vector that went in at TDI: this bit of it has passed the whole chain.
    Tdi {
        /// The part of the vector in which it stands.
        part: Part,
        /// Its place there.
        bit: usize,
    },
}

/// Why a bit of a scan failed.
#[derive(Debug, Clone, Copy, PartialEq, Eq)]
pub struct Reason {
    /// What was wanted; the opposite came.
    pub wanted: bool,
    /// What held the bit that came.
    pub holder: Holder,
}
