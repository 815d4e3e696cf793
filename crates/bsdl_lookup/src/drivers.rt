//! The lowest cells that drive port bits.
ghost use Rattle.std.specs.Prelude.{suc, ◌≡◌, ◌<◌, ◌≤◌, ◌||◌, ◌&&◌, ℕ, List, map, nat_lt, IfOk, OnOk};
ghost use Rattle.std.specs.List.{list_any};
ghost use Rattle.jt_limits.specs.Limits.{subscript_limit};
ghost use Rattle.bsdl_values.specs.CellRows as rows;
ghost use Rattle.bsdl_values.specs.CellView.{cell_row};
ghost use Rattle.bsdl_entity.specs.Ports as port_list;
ghost use Rattle.bsdl_lookup.specs.declared.port_index.PortIndex as declared_port_index;
ghost use Rattle.bsdl_lookup.specs.Drivers.{drives_below, driver_at, is_below, same_bit};
ghost use Rattle.bsdl_lookup.specs.Keyed.{AreKeyed};

use crate::keyed_ports::{KeyedPorts, port_index_by_key};
use crate::port_index::PortIndex;
use bsdl_values::CellRow;
use jt_limits::ABOVE_SUBSCRIPTS;
use std::alloc::{AllocError, Global};
use std::collections::BTreeMap;

/// The lowest cell that drives each port bit, by the number of the port and the digits of the index; numbers above
/// 65,536 count as 65,536.
#[derive(Debug, Drop)]
pub struct Drivers<'a> {
    pub lowest: BTreeMap<(usize, &'a [u8]), usize>,
}

/// The lowest cells that drive port bits, where the ports are known by the keys of their names. Refuses for want of
/// memory alone.
pub fn drivers_by_key<'a>(
    alloc: Global,
    keyed: &KeyedPorts<'a>,
    rows: &[CellRow<'a>],
) -> Result<Drivers<'a>, AllocError>
    ensures { IfOk result (λ d. (ps : List port_list.Port) → AreKeyed keyed.now ps
        → (s : declared_port_index.PortIndex) (n : ℕ) → n ≤ suc subscript_limit
        → is_below (driver_at d s) n ≡ list_any (drives_below ps s n) (map cell_row rows.now)) }
{
    let mut drivers = Drivers {
        lowest: BTreeMap::new(alloc),
    };
    for row in rows {
        add_row_by_key(&mut drivers, keyed, row)?;
    }
    Ok(drivers)
}

fn add_row_by_key<'a>(
    drivers: &mut Drivers<'a>,
    keyed: &KeyedPorts<'a>,
    row: &CellRow<'a>,
) -> Result<(), AllocError>
    ensures { OnOk result ((ps : List port_list.Port) → AreKeyed keyed.now ps
        → (s : declared_port_index.PortIndex) (n : ℕ) → n ≤ suc subscript_limit
        → is_below (driver_at drivers.new s) n
        ≡ is_below (driver_at drivers.old s) n || drives_below ps s n (cell_row row.now)) }
{
    if !row.function.drives() {
        return Ok(());
    }
    match row.port {
        Some(port) => match port_index_by_key(keyed, port) {
            Some(port_index) => {
                add_driver(drivers, port_index, row.number.up_to(ABOVE_SUBSCRIPTS))?;
                Ok(())
            }
            None => Ok(()),
        },
        None => Ok(()),
    }
}

fn add_driver<'a>(
    drivers: &mut Drivers<'a>,
    port_index: PortIndex<'a>,
    number: usize,
) -> Result<(), AllocError>
    ensures { OnOk result ((s : declared_port_index.PortIndex) (n : ℕ) → is_below (driver_at drivers.new s) n
        ≡ is_below (driver_at drivers.old s) n || (same_bit port_index.entry s && nat_lt number n)) }
{
    let lowest = drivers.lowest_with(port_index, number);
    drivers
        .lowest
        .insert((port_index.port, port_index.index.digits), lowest)?;
    Ok(())
}

impl<'a> Drivers<'a> {
    /// The lowest cell that drives a port bit, where this one drives it too.
    fn lowest_with(&self, port_index: PortIndex<'a>, number: usize) -> usize
        ensures { (n : ℕ) → nat_lt result n ≡ is_below (driver_at self.now port_index.entry) n || nat_lt number n }
    {
        match self.lowest.get(&(port_index.port, port_index.index.digits)) {
            Some(known) => (*known).min(number),
            None => number,
        }
    }

    /// Whether a cell below this one drives a port bit.
    pub fn is_driven_below(&self, port_index: PortIndex<'a>, number: usize) -> bool
        ensures { result ≡ is_below (driver_at self.now port_index.entry) number }
    {
        match self.lowest.get(&(port_index.port, port_index.index.digits)) {
            Some(lowest) => *lowest < number,
            None => false,
        }
    }
}
