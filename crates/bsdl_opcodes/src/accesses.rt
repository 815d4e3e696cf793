//! The registers that a device's own instructions select.
ghost use Rattle.std.specs.Prelude.{◌≡◌, ◌++◌, ℕ, List, map, option_map, unwrap_or, if◌then◌else◌, None, IfOk};
ghost use Rattle.bsdl_device.specs.Opcodes.{x_as_0 as bits_of_pattern};
ghost use Rattle.std.specs.Prelude.{OnOk};
ghost use Rattle.std.specs.List.{flat_map};
ghost use Rattle.bsdl_text.specs.Words.{upper};
ghost use Rattle.bsdl_values.specs.InstructionView as rows_view;
ghost use Rattle.bsdl_device.specs.declared.Place.TheVariants.{AtUser};
ghost use Rattle.bsdl_opcodes.specs.Users.{user_number};
ghost use Rattle.bsdl_opcodes.specs.UserView.{Lists};
ghost use Rattle.bsdl_opcodes.specs.Accesses as spec;

use crate::patterns::bits_of;
use crate::users::Users;
use bsdl_device::{Access, Place};
use bsdl_text::same_name;
use bsdl_values::{AccessRow, Instr, WrittenPattern};
use jt_bits::Bits;
use std::alloc::{AllocError, Global};

/// The device's own instructions with the registers that they select. Refuses for want of memory alone.
pub fn accesses_of(
    alloc: Global,
    users: &Users<'_>,
    rows: &[AccessRow<'_>],
) -> Result<Vec<Access>, AllocError>
    ensures { IfOk result (λ v. (us : List (List ℕ × ℕ)) → Lists users.now us → v.items
        ≡ flat_map (spec.accesses_of_row us) (map rows_view.access_row rows.now)) }
{
    let mut accesses = Vec::new(alloc);
    for row in rows {
        add_row(alloc, &mut accesses, users, row)?;
    }
    Ok(accesses)
}

fn add_row(
    alloc: Global,
    accesses: &mut Vec<Access>,
    users: &Users<'_>,
    row: &AccessRow<'_>,
) -> Result<(), AllocError>
    ensures { OnOk result ((us : List (List ℕ × ℕ)) → Lists users.now us → accesses.new.items ≡ accesses.old.items
        ++ spec.accesses_of_row us (rows_view.access_row row.now)) }
{
    let place = place_of(alloc, users, row)?;
    let is_own = row.len.is_some();
    for instr in &row.instrs {
        let found = access_of(alloc, place, is_own, instr)?;
        accesses.push(found)?;
    }
    Ok(())
}

/// An own instruction that selects this register; a pattern behind CAPTURES counts for a register of the device's own.
fn access_of(
    alloc: Global,
    place: Place,
    is_own: bool,
    instr: &Instr<'_>,
) -> Result<Access, AllocError>
    ensures { IfOk result (λ a. a ≡ spec.access place is_own (rows_view.instr instr.now)) }
{
    let instruction = instr.name.upper_name(alloc)?;
    let captures = captures_of(alloc, is_own, &instr.captures)?;
    Ok(Access::new(instruction, place, captures))
}

fn captures_of(
    alloc: Global,
    is_own: bool,
    captures: &Option<Box<WrittenPattern>>,
) -> Result<Option<Bits>, AllocError>
    ensures { IfOk result (λ o. o ≡ (if is_own then option_map bits_of_pattern
        (option_map (λ b. rows_view.pattern b.value) captures.now) else None)) }
{
    if !is_own {
        return Ok(None);
    }
    match captures {
        Some(pattern) => Ok(Some(bits_of(alloc, &pattern.digits)?)),
        None => Ok(None),
    }
}

/// The register of a row.
fn place_of(alloc: Global, users: &Users<'_>, row: &AccessRow<'_>) -> Result<Place, AllocError>
    ensures { IfOk result (λ p. (us : List (List ℕ × ℕ)) → Lists users.now us → p
        ≡ spec.place_of us (rows_view.access_row row.now) (rows_view.access_row row.now).len) }
{
    match row.len {
        Some(_len) => {
            let key = row.register.upper_name(alloc)?;
            Ok(own_place(users, key.as_str()))
        }
        None => Ok(public_place(row.register.text)),
    }
}

/// A register of the device's own.
fn own_place(users: &Users<'_>, name: &str) -> Place
    ensures { (us : List (List ℕ × ℕ)) → Lists users.now us → result ≡ AtUser (unwrap_or (user_number us name.now) 0) }
{
    match users.numbers.get(name) {
        Some(number) => Place::AtUser(*number),
        None => Place::AtUser(0),
    }
}

/// A register that is not the device's own.
fn public_place(name: &[u8]) -> Place
    ensures { result ≡ spec.public_place (upper name.now) }
{
    if same_name(name, b"BOUNDARY") {
        return Place::AtBoundary;
    }
    if same_name(name, b"BYPASS") {
        return Place::AtBypass;
    }
    Place::AtDeviceId
}
