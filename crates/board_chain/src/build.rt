//! A planned chain, powered up.

ghost use Rattle.std.specs.Prelude.{◌≡◌, map, IfOk};
ghost use Rattle.board_loops.specs.Depending.{IsOrdered};
ghost use Rattle.board_model.specs.Following.{IsOrderOf};
ghost use Rattle.board_model.specs.Planned.{members_of};
ghost use Rattle.board_plan.specs.View.{wiring};
ghost use Rattle.board_chips.specs.Strings.{AreStrung, placed_of};
ghost use Rattle.board_chain.specs.Chains.{chain_of};
ghost use Rattle.board_chain.specs.Ready.{IsReady};

use crate::chain::Chain;
use crate::settled::Settled;
use board_chips::{WiredString, Wiring, all_chips, refresh, wired_strings};
use board_plan::Plan;
use std::alloc::{AllocError, Global};

impl Chain {
    /// A planned chain as it powers up: TRST released, each device in RESET with its reset instruction, all else 0 but
    /// the `controlr` cells. Refuses for want of memory alone.
    pub fn new(alloc: Global, plan: &Plan) -> Result<Chain, AllocError>
        requires ready { IsReady (wiring plan.now) }
        requires ordered { IsOrdered plan.now }
        ensures { IfOk result (λ c. c ≡ chain_of (wiring plan.now)) }
    {
        let strings = strings_in_order(alloc, plan)?;
        let chips = all_chips(alloc, &plan.devices, &plan.nets)?;
        let mut wiring = Wiring::new(alloc, &plan.nets)?;
        refresh(&mut wiring, &chips);
        let settled = Settled::first(alloc, chips, wiring, strings)?;
        Ok(Chain::of(settled))
    }
}

/// The strings of a plan in its order of work, each behind those that its source's net depends on.
fn strings_in_order(alloc: Global, plan: &Plan) -> Result<Vec<WiredString>, AllocError>
    requires ready { IsReady (wiring plan.now) }
    requires ordered { IsOrdered plan.now }
    ensures strung { IfOk result (λ v. AreStrung (wiring plan.now).nets
        (map (λ m. m.device.cells) (wiring plan.now).members) v.items) }
    ensures order { IfOk result (λ v. IsOrderOf (wiring plan.now).nets (members_of (wiring plan.now))
        (map placed_of v.items)) }
{
    wired_strings(alloc, &plan.devices, &plan.nets, &plan.order)
}
