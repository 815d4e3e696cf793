//! Strings with other numbers for their nets, so that there are no more numbers than nets that a string names.
ghost use Rattle.std.specs.Prelude.{◌≡◌, [], IfOk};
ghost use Rattle.board_loops.specs.Renumbering.{AreRenumbered, HasPlace};

use crate::net_loops::Dependency;
use board_tables::Places;
use std::alloc::{AllocError, Global};

/// The strings with each net by its place among those that they name, which are added to none. Refused where memory
/// runs out.
pub(crate) fn renumber(
    alloc: Global,
    nets: &mut Places<usize>,
    strings: &[Dependency],
) -> Result<Vec<Dependency>, AllocError>
    requires { nets.old ≡ [] }
    ensures { IfOk result (λ v. AreRenumbered strings.now nets.new v.items) }
{
    let mut all = Vec::with_capacity(alloc, strings.len())?;
    for string in strings {
        let target = place_of(nets, string.target)?;
        let source = place_of(nets, string.source)?;
        all.push(Dependency { target, source })?;
    }
    Ok(all)
}

/// The place of a net among these, to which it is added where it is not there yet.
fn place_of(nets: &mut Places<usize>, net: usize) -> Result<usize, AllocError>
    ensures { IfOk result (HasPlace nets.old nets.new net) }
{
    match nets.place(net) {
        Some(place) => Ok(place),
        None => {
            let place = nets.len();
            nets.push(net)?;
            Ok(place)
        }
    }
}
