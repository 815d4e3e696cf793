//! The registers of a device's own, in the order in which they are first named.
ghost use Rattle.std.specs.Prelude.{ℕ, ◌∷◌, ◌++◌, List, [], map, IfOk, OnOk, if◌then◌else◌};
ghost use Rattle.bsdl_device.specs.Device.{Name};
ghost use Rattle.bsdl_text.specs.Words.{upper};
ghost use Rattle.bsdl_text.specs.NumberView.{value};
ghost use Rattle.bsdl_values.specs.InstructionView as rows_view;
ghost use Rattle.bsdl_opcodes.specs.Users as spec;
ghost use Rattle.bsdl_opcodes.specs.UserView.{Lists};

use bsdl_text::{Digits, Word};
use bsdl_values::AccessRow;
use std::alloc::{AllocError, Global};
use std::collections::BTreeMap;

/// The lengths of the registers, and the number of each name in upper case.
#[derive(Debug, Drop)]
pub struct Users<'a> {
    pub lengths: Vec<Digits<'a>>,
    pub numbers: BTreeMap<String, usize>,
}

/// The registers that rows name. Refuses for want of memory alone.
pub fn users_of<'a>(alloc: Global, rows: &[AccessRow<'a>]) -> Result<Users<'a>, AllocError>
    ensures { IfOk result (λ u. Lists u (spec.users_of (map rows_view.access_row rows.now))) }
{
    let mut users = Users {
        lengths: Vec::new(alloc),
        numbers: BTreeMap::new(alloc),
    };
    for row in rows {
        add_row(alloc, &mut users, row)?;
    }
    Ok(users)
}

fn add_row<'a>(alloc: Global, users: &mut Users<'a>, row: &AccessRow<'a>) -> Result<(), AllocError>
    ensures { OnOk result ((us : List (Name × ℕ)) → Lists users.old us
        → Lists users.new (spec.with_row us (rows_view.access_row row.now))) }
{
    match row.len {
        Some(len) => add_user(alloc, users, row.register, len),
        None => Ok(()),
    }
}

fn add_user<'a>(
    alloc: Global,
    users: &mut Users<'a>,
    register: Word<'a>,
    len: Digits<'a>,
) -> Result<(), AllocError>
    ensures { OnOk result ((us : List (Name × ℕ)) → Lists users.old us
        → Lists users.new (if spec.is_user us (upper register.entry.text.now) then us else us
        ++ (upper register.entry.text.now, value len.entry) ∷ [])) }
{
    let key = register.upper_name(alloc)?;
    if users.numbers.contains_key(key.as_str()) {
        return Ok(());
    }
    let number = users.lengths.len();
    users.numbers.insert(key, number)?;
    users.lengths.push(len)?;
    Ok(())
}
