//! What holds of all texts.
ghost use Rattle.bsdl.specs.Laws.{EveryCellFitsItsDevice, EveryCellHasThePortThatItsRowNames, PinsFindTheBitsOfRows};
ghost use Rattle.bsdl.specs.Laws.{EveryDeviceIsExact, EveryDeviceIsLimited, EveryDeviceIsSmall, EveryDeviceIsSound};
ghost use Rattle.bsdl.specs.Within.{LargerLimitsSayMore, SaidIsWithin, WhatLiesWithinIsSaid};

/// Every device that a text says is sound: each register that an instruction can select has a bit, and so has what it
/// captures.
pub fn every_device_is_sound()
    ensures { EveryDeviceIsSound }
{}

/// Every device that a text says keeps the limits, whatever numbers the text names: at most 8,192 port bits, with
/// indices up to 65,535, 256 instructions of 2 to 64 bits, 4,096 cells, and 64 registers of its own with 4,096 bits;
/// each opcode and what the instruction register captures are as long as that register, and codes have 32 bits.
pub fn every_device_is_limited()
    ensures { EveryDeviceIsLimited }
{}

/// In every device that a text says, what a register takes is as long as it. The limits say this of opcodes, of what
/// the instruction register captures, and of codes. Each own instruction of a user register names one that the device
/// has, of at least one bit, and captures as many bits there, where a pattern fixes what it captures.
pub fn every_device_is_exact()
    ensures { EveryDeviceIsExact }
{}

/// The lists of a device that no limit bounds, its text bounds. The name of each port bit has at most as many bytes as
/// the text. There are at most as many private names, patterns of all instructions, and own instructions as the text
/// has bytes. All private names together have at most as many bytes; so have the names of all instructions together
/// with the bits of their patterns, and the names of all own instructions together with the bits that they capture.
pub fn every_device_is_small()
    ensures { EveryDeviceIsSmall }
{}

/// The port bits of a device are numbered in one way: the number that a row of the boundary register has for the bit
/// that it names is that by which `Device::find_port` finds it, by the name in any case and the index, as it does for
/// the pins of a board.
pub fn pins_find_the_bits_of_rows()
    ensures { PinsFindTheBitsOfRows }
{}

/// In every device that a text says, each row of the boundary register has its cell, which stands at the row's number.
/// The cell has the row's function, its control where the cell drives, and as its port the number at which the name
/// and the index of the row are found among the device's port bits; a row that names a port names one that is there.
/// There are no other cells, and each has one row.
pub fn every_cell_has_the_port_that_its_row_names()
    ensures { EveryCellHasThePortThatItsRowNames }
{}

/// In every device that a text says, each cell fits: a control cell or an internal one has no port, and each other has
/// a port bit that the device has and that is not the TAP's. No two cells drive one port bit. OUTPUT3 and BIDIR cells
/// have a control, which is a control cell of the device; an OUTPUT2 cell may have one, or be its own; no other cell
/// has a control.
pub fn every_cell_fits_its_device()
    ensures { EveryCellFitsItsDevice }
{}

/// What a text says hangs on the limits only by whether the text and what it describes lie within them: they do, what
/// is said within some limits is said within others that it lies within, and so within all that are larger.
pub fn descriptions_are_limited()
    ensures within { SaidIsWithin }
    ensures kept { WhatLiesWithinIsSaid }
    ensures larger { LargerLimitsSayMore }
{}
