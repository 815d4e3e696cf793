//! The numbers of variables.

ghost use Rattle.std.specs.Prelude.{◌≡◌, ◌≤◌, length};
ghost use Rattle.jt_limits.specs.Limits.{limits};
ghost use Rattle.wave_files.specs.Values as spec;

use board_chain::Chain;

/// The number of the variable that shows which statement is played.
pub const STATEMENT_VARIABLE: usize = 5;
/// The number of the first variable of the first device.
pub const FIRST_OF_DEVICES: usize = 6;
/// So many variables has a device.
pub const VARIABLES_OF_DEVICE: usize = 3;
/// So many variables tell of the bits that scans want, whether they are drawn or not.
const VARIABLES_OF_NOTES: usize = 4;
/// So many variables more has a device, whether they are drawn or not.
pub const EXTRAS_OF_DEVICE: usize = 2;

/// The number of the first variable that tells of the bits that scans want.
pub fn first_of_notes(chain: &Chain) -> usize
    requires few { length chain.now.chips ≤ limits.devices }
    requires few_nets { length chain.now.nets ≤ limits.nets }
    ensures number { result ≡ spec.first_of_notes chain.now.chips chain.now.nets }
    ensures few { result ≤ 100000 }
{
    FIRST_OF_DEVICES + VARIABLES_OF_DEVICE * chain.devices() + chain.nets()
}

/// The number of the first variable of what is drawn of devices besides.
pub fn first_of_extras(chain: &Chain) -> usize
    requires few { length chain.now.chips ≤ limits.devices }
    requires few_nets { length chain.now.nets ≤ limits.nets }
    ensures number { result ≡ spec.first_of_extras chain.now.chips chain.now.nets }
    ensures few { result ≤ 200000 }
{
    first_of_notes(chain) + VARIABLES_OF_NOTES
}

/// The number of the first variable of what pins drive.
pub fn first_of_drives(chain: &Chain) -> usize
    requires few { length chain.now.chips ≤ limits.devices }
    requires few_nets { length chain.now.nets ≤ limits.nets }
    ensures number { result ≡ spec.first_of_drives chain.now.chips chain.now.nets }
    ensures few { result ≤ 300000 }
{
    first_of_extras(chain) + EXTRAS_OF_DEVICE * chain.devices()
}
