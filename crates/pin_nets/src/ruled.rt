//! What a net shows by its rule.

ghost use Rattle.std.specs.Prelude.{◌≡◌, ◌&&◌, not, map, take, if◌then◌else◌};
ghost use Rattle.std.specs.List.{list_any};
ghost use Rattle.pin_nets.specs.Levels as levels;
ghost use Rattle.pin_nets.specs.Levels.{drive_at, four, net_counts};
ghost use Rattle.pin_nets.specs.declared.Level.TheVariants as the;

use crate::nets::Net;
use crate::{Counts, Drive, Level, Rule, counts_of_row, level_of, reads};

/// What ports see of a net that has these numbers of drivers (asked).
pub(crate) fn sees(net: &Net, counts: &[usize; 4], drives: &[Drive]) -> bool
    requires { counts.now ≡ four (net_counts drives.now net.now) }
    ensures { result ≡ levels.reads (levels.level drives.now net.now) }
{
    reads(level_by_rule(net, counts_of_row(counts), drives))
}

/// What a net shows that has these numbers of drivers (asked).
pub(crate) fn level_by_rule(net: &Net, counts: Counts, drives: &[Drive]) -> Level
    requires { counts ≡ net_counts drives.now net.now }
    ensures { result ≡ levels.level drives.now net.now }
{
    match net.rule {
        Rule::Counted => level_of(counts),
        Rule::Tied(true) => Level::One,
        Rule::Tied(false) => Level::Zero,
        Rule::WiredOr => {
            if is_opposed(counts) {
                Level::One
            } else {
                level_of(counts)
            }
        }
        Rule::Led(pins) => {
            if is_opposed(counts) {
                led_by(first_of(&net.pins, pins), drives)
            } else {
                level_of(counts)
            }
        }
    }
}

/// Whether strong drivers of both levels are there.
pub(crate) fn is_opposed(counts: Counts) -> bool
    ensures { result ≡ levels.is_opposed counts }
{
    counts.strong_zeros != 0 && counts.strong_ones != 0
}

/// The first pins, so many, or all where there are not more.
fn first_of(pins: &[usize], count: usize) -> &[usize]
    ensures { result.now ≡ take count pins.now }
{
    if count < pins.len() {
        &pins[..count]
    } else {
        pins
    }
}

/// What pins that lead say.
fn led_by(pins: &[usize], drives: &[Drive]) -> Level
    ensures { result ≡ levels.led_by (map (drive_at drives.now) pins.now) }
{
    lead(
        any_drives(pins, drives, true),
        any_drives(pins, drives, false),
    )
}

/// 1 where strong drivers of 1 lead alone, else 0.
fn lead(ones: bool, zeros: bool) -> Level
    ensures { result ≡ (if ones && not zeros then the.One else the.Zero) }
{
    if ones && !zeros {
        Level::One
    } else {
        Level::Zero
    }
}

/// Whether one of these pins drives this bit strongly.
fn any_drives(pins: &[usize], drives: &[Drive], bit: bool) -> bool
    ensures { result ≡ list_any (λ pin. levels.is_strong bit (drive_at drives.now pin)) pins.now }
{
    pins.iter().any(|pin| drives_strongly(drives, *pin, bit))
}

/// Whether a pin drives this bit strongly.
fn drives_strongly(drives: &[Drive], pin: usize, bit: bool) -> bool
    ensures { result ≡ levels.is_strong bit (drive_at drives.now pin) }
{
    match drives.get(pin) {
        Some(Drive::Strong(it)) => *it == bit,
        _ => false,
    }
}
