//! Which registers the instructions of a device select.
ghost use Rattle.std.specs.Prelude.{◌≡◌, Some, bytes_eq, map, option_and_then, option_map, slice_get, IfOk};
ghost use Rattle.std.specs.List.{position};
ghost use Rattle.bsdl_device.specs.Device as described;
ghost use Rattle.board_tables.specs.WordView.{texts_of};
ghost use Rattle.chip_instructions.specs.Instruction.{access_meaning, look_up, meaning_of, reads_code};
ghost use Rattle.board_description.specs.Kept.{NamesUsers, NoNames, own_names, with_name};

use board_tables::Places;
use bsdl_device::{Access, Device, Place};
use chip_instructions::Selected;
use std::alloc::{AllocError, Global};

/// The names of a device's own instructions, to be found by. Refuses for want of memory alone.
pub(crate) fn own_places<'d>(
    alloc: Global,
    device: &'d Device,
) -> Result<Places<&'d str>, AllocError>
    ensures { IfOk result (λ own. texts_of own ≡ own_names device.now) }
{
    let mut own = Places::new(alloc);
    for access in device.accesses() {
        own.push(access.instruction())?;
    }
    Ok(own)
}

/// Of each user register of a device the first instruction that selects it. Refuses for want of memory alone.
#[tactic(auto, using(crate::proofs::TextLaws::no_users))]
pub(crate) fn user_names<'d>(alloc: Global, device: &'d Device) -> Result<Vec<&'d str>, AllocError>
    ensures { IfOk result (λ v. NamesUsers device.now.users device.now.accesses (texts_of v.items)) }
{
    let accesses = device.accesses();
    let mut names = no_names(alloc, device.users().len())?;
    let mut i = accesses.len();
    while i > 0 {
        i -= 1;
        enter_name(&mut names, accesses[i].place(), accesses[i].instruction());
    }
    Ok(names)
}

/// So many names, none of which is entered yet.
#[tactic(auto, using(crate::proofs::TextLaws::no_names_more))]
fn no_names<'d>(alloc: Global, count: usize) -> Result<Vec<&'d str>, AllocError>
    ensures { IfOk result (λ v. NoNames count (texts_of v.items)) }
{
    let mut names = Vec::with_capacity(alloc, count)?;
    let mut k = 0;
    while k < count {
        names.push("")?;
        k += 1;
    }
    Ok(names)
}

/// Enters an instruction for the user register that it selects, if it selects one.
#[tactic(auto, using(crate::proofs::TextLaws::map_set))]
fn enter_name<'d>(names: &mut [&'d str], place: Place, instruction: &'d str)
    ensures { texts_of names.new ≡ with_name place instruction.now (texts_of names.old) }
{
    if let Place::AtUser(k) = place {
        if k < names.len() {
            names[k] = instruction;
        }
    }
}

/// The data register that the instruction of a name selects, given the names of the device's own instructions.
pub(crate) fn selected_by(device: &Device, own: &Places<&str>, name: &str) -> Selected
    requires { texts_of own.now ≡ own_names device.now }
    ensures { result ≡ (meaning_of device.now (Some name.now)).selected }
{
    if device.is_private(name) {
        return Selected::Bypass;
    }
    match name {
        "EXTEST" | "SAMPLE" | "PRELOAD" => Selected::Boundary,
        "BYPASS" | "CLAMP" | "HIGHZ" | "INTEST" | "RUNBIST" => Selected::Bypass,
        "IDCODE" => idcode_register(device),
        "USERCODE" => usercode_register(device),
        _ => own_register(device, own, name),
    }
}

/// The register of the identification code: bypass where the device has none.
fn idcode_register(device: &Device) -> Selected
    ensures { result ≡ (reads_code device.now.idcode).selected }
{
    match device.idcode() {
        Some(_) => Selected::Identification,
        None => Selected::Bypass,
    }
}

/// The register of the user code: bypass where the device has none.
fn usercode_register(device: &Device) -> Selected
    ensures { result ≡ (reads_code device.now.usercode).selected }
{
    match device.usercode() {
        Some(_) => Selected::Identification,
        None => Selected::Bypass,
    }
}

/// The register that an own instruction of the device selects.
#[tactic(auto, using(crate::proofs::TextLaws::own_meaning))]
fn own_register(device: &Device, own: &Places<&str>, name: &str) -> Selected
    requires { texts_of own.now ≡ own_names device.now }
    ensures { result ≡ (look_up name.now (map (access_meaning device.now) device.now.accesses)).selected }
{
    match own_access(device, own, name) {
        Some(access) => register_at(device, access.place()),
        None => Selected::Bypass,
    }
}

/// The own instruction of a name.
fn own_access<'d>(device: &'d Device, own: &Places<&str>, name: &str) -> Option<&'d Access>
    requires { texts_of own.now ≡ own_names device.now }
    ensures { option_map {U = described.Access} (λ a. a.now) result
        ≡ option_and_then (λ place. slice_get device.now.accesses place)
        (position (bytes_eq name.now) (own_names device.now)) }
{
    let place = own.place_of(name)?;
    device.accesses().get(place)
}

/// The register at a place.
fn register_at(device: &Device, place: Place) -> Selected
    ensures { (a : described.Access) → a.place ≡ place → result ≡ (access_meaning device.now a).1.selected }
{
    match place {
        Place::AtBypass => Selected::Bypass,
        Place::AtBoundary => Selected::Boundary,
        Place::AtDeviceId => idcode_register(device),
        Place::AtUser(user) => Selected::User(user),
    }
}
