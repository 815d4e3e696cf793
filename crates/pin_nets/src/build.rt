//! The nets of a board at power-up.

ghost use Rattle.std.specs.Prelude.{◌≡◌, ◌<◌, ◌++◌, ℕ, [], ◌∷◌, None, length, map, slice_index, IfOk, OnOk};
ghost use Rattle.std.specs.List.{list_all};
ghost use Rattle.pin_nets.specs.Levels as levels;
ghost use Rattle.pin_nets.specs.Levels.{four, counts_of, pull_drive, shown};
ghost use Rattle.pin_nets.specs.Places.{AddsLoneNets, AllNone, AreShort, EntersPins, HasNetOfEach, IsOnce, alone};
ghost use Rattle.pin_nets.specs.Building.{HasPinsBelow, built, net_value};

use crate::nets::{Net, Nets};
use crate::{Drive, Level, Pull, Rule, level_of, pull_counts, reads, row_of_counts};
use std::alloc::{AllocError, Global};

/// A net as a board has it: its pins by number, its pull, and its rule.
#[derive(Debug, Drop)]
pub struct NetSpec {
    pub pins: Vec<usize>,
    pub pull: Pull,
    pub rule: Rule,
}

impl Nets {
    /// These nets over so many pins, each of which drives nothing. A pin on none of them is a net by itself, without a
    /// pull, after the others, by rising number. No pin stands twice, and each is below the count. Refuses for want of
    /// memory alone.
    pub fn build(alloc: Global, pins: usize, nets: &[NetSpec]) -> Result<Nets, AllocError>
        requires once { IsOnce (map net_value nets.now) }
        requires below { HasPinsBelow pins (map net_value nets.now) }
        ensures { IfOk result (λ n. n ≡ built pins (map net_value nets.now)) }
    {
        let mut net_of = Vec::from_elem(alloc, None, pins)?;
        let mut all = named_nets(alloc, nets, &mut net_of)?;
        add_lone(alloc, &mut all, &mut net_of)?;
        let counts = start_counts(alloc, &all)?;
        let seen = start_seen(alloc, &all)?;
        let drives = Vec::from_elem(alloc, Drive::Nothing, pins)?;
        let all_counted = are_counted(&all);
        Ok(Nets {
            drives,
            net_of,
            nets: all,
            counts,
            seen,
            all_counted,
        })
    }
}

/// The named nets, each entered at its pins.
fn named_nets(
    alloc: Global,
    specs: &[NetSpec],
    net_of: &mut [Option<usize>],
) -> Result<Vec<Net>, AllocError>
    requires once { IsOnce (map net_value specs.now) }
    requires below { HasPinsBelow (length net_of.old) (map net_value specs.now) }
    requires none { AllNone net_of.old }
    ensures nets { IfOk result (λ v. v.items ≡ map net_value specs.now) }
    ensures marked { IfOk result (λ v. HasNetOfEach net_of.new v.items) }
    ensures short { IfOk result (λ v. AreShort v.items) }
{
    let mut nets = Vec::with_capacity(alloc, specs.len())?;
    for spec in specs {
        join(net_of, nets.len(), &spec.pins);
        nets.push(Net {
            pull: spec.pull,
            rule: spec.rule,
            pins: spec.pins.to_vec(alloc)?,
        })?;
    }
    Ok(nets)
}

/// Enters a net at its pins.
fn join(net_of: &mut [Option<usize>], net: usize, pins: &[usize])
    requires { (i : ℕ) → i < length pins.now → slice_index pins.now i < length net_of.old }
    ensures { EntersPins net_of.old net_of.new net pins.now }
{
    for pin in pins {
        net_of[*pin] = Some(net);
    }
}

/// Makes each pin that is on no net a net by itself.
fn add_lone(
    alloc: Global,
    nets: &mut Vec<Net>,
    net_of: &mut [Option<usize>],
) -> Result<(), AllocError>
    requires marked { HasNetOfEach net_of.old nets.old.items }
    requires once { IsOnce nets.old.items }
    requires short { AreShort nets.old.items }
    ensures { OnOk result (AddsLoneNets nets.old.items (length net_of.old) net_of.new nets.new.items) }
{
    for pin in 0..net_of.len() {
        if net_of[pin].is_none() {
            net_of[pin] = Some(nets.len());
            add_alone(alloc, nets, pin)?;
        }
    }
    Ok(())
}

/// One more net, of one pin and without a pull.
fn add_alone(alloc: Global, nets: &mut Vec<Net>, pin: usize) -> Result<(), AllocError>
    ensures { OnOk result (nets.new.items ≡ nets.old.items ++ alone pin ∷ []) }
{
    let mut pins = Vec::with_capacity(alloc, 1)?;
    pins.push(pin)?;
    nets.push(Net {
        pull: Pull::Free,
        rule: Rule::Counted,
        pins,
    })?;
    Ok(())
}

/// Whether every net shows what its drivers say.
fn are_counted(nets: &[Net]) -> bool
    ensures { result ≡ list_all (λ net. levels.is_counted net.rule) nets.now }
{
    nets.iter().all(|net| matches!(net.rule, Rule::Counted))
}

/// The numbers of drivers while no pin drives.
fn start_counts(alloc: Global, nets: &[Net]) -> Result<Vec<[usize; 4]>, AllocError>
    ensures { IfOk result (λ v. v.items ≡ map (λ x. four (counts_of (pull_drive x.pull ∷ []))) nets.now) }
{
    let mut counts = Vec::with_capacity(alloc, nets.len())?;
    for net in nets {
        counts.push(row_of_counts(pull_counts(net.pull)))?;
    }
    Ok(counts)
}

/// What the ports of each net see while no pin drives.
fn start_seen(alloc: Global, nets: &[Net]) -> Result<Vec<bool>, AllocError>
    ensures { IfOk result (λ v. v.items ≡ map (λ x. levels.reads (shown x.rule (pull_drive x.pull) [])) nets.now) }
{
    let mut seen = Vec::with_capacity(alloc, nets.len())?;
    for net in nets {
        seen.push(reads(idle_level(net)))?;
    }
    Ok(seen)
}

/// What a net shows while no pin drives: the bit that it is tied to, else what its pull says.
fn idle_level(net: &Net) -> Level
    ensures { result ≡ shown net.now.rule (pull_drive net.now.pull) [] }
{
    match net.rule {
        Rule::Tied(true) => Level::One,
        Rule::Tied(false) => Level::Zero,
        Rule::Counted | Rule::WiredOr | Rule::Led(_) => level_of(pull_counts(net.pull)),
    }
}
