//! Ports and pins as the board file writes them: `Q` or `A(3)`, and `U1.Q` or `U1.A(3)`.
ghost use Rattle.std.specs.Prelude.{◌≡◌, ◌<◌, ℕ, true, List, option_map, IfSome};
ghost use Rattle.std.specs.List.{list_all};
ghost use Rattle.std.specs.Char.{is_ascii_digit};
ghost use Rattle.board_tables.specs.PinTexts as spec;
ghost use Rattle.board_tables.specs.WordView.{HasDigits, port as port_value};

use crate::names::is_name;

/// A port's name, and the digits of its index, if it has one.
#[derive(Debug, Clone, Copy)]
pub struct PortText<'a> {
    pub name: &'a str,
    pub index: Option<&'a str>,
}

/// A pin's device and port, and the digits of its index, if it has one.
#[derive(Debug, Clone, Copy)]
pub struct PinText<'a> {
    pub device: &'a str,
    pub port: &'a str,
    pub index: Option<&'a str>,
}

/// The pin that a text spells.
#[tactic(auto, unfolding(crate::specs::PinTexts::pin_of))]
pub fn pin_of(text: &str) -> Option<PinText<'_>>
    ensures pin { option_map {U = spec.PinText}
        (λ p. record { device = p.device.now; port = p.port.now; index = option_map (λ d. d.now) p.index }) result
        ≡ spec.pin_of text.now }
    ensures digits { IfSome result (λ p. IfSome p.index (λ d. spec.is_number d.now ≡ true)) }
{
    let (device, rest) = split_at_byte(text, '.')?;
    if !is_name(device) {
        return None;
    }
    let port = port_of(rest)?;
    Some(PinText {
        device,
        port: port.name,
        index: port.index,
    })
}

/// The port that a text spells.
#[tactic(auto, unfolding(crate::specs::PinTexts::port_of))]
pub(crate) fn port_of(text: &str) -> Option<PortText<'_>>
    ensures port { option_map port_value result ≡ spec.port_of text.now }
    ensures digits { IfSome result HasDigits }
{
    let (name, index) = match split_at_byte(text, '(') {
        None => (text, None),
        Some((name, rest)) => match index_of(rest) {
            Some(digits) => (name, Some(digits)),
            None => return None,
        },
    };
    if !is_name(name) {
        return None;
    }
    Some(PortText { name, index })
}

/// The digits of an index, behind its `(` and up to the `)` that ends the text.
#[tactic(auto, unfolding(crate::specs::PinTexts::index_of))]
fn index_of(text: &str) -> Option<&str>
    ensures index { option_map (λ d. d.now) result ≡ spec.index_of text.now }
    ensures digits { IfSome result (λ d. spec.is_number d.now ≡ true) }
{
    match split_at_byte(text, ')') {
        Some((digits, "")) if is_number(digits) => Some(digits),
        _ => None,
    }
}

/// Whether the text is some digits.
fn is_number(text: &str) -> bool
    ensures { result ≡ spec.is_number text.now }
{
    !text.is_empty() && are_digits(text.as_bytes())
}

fn are_digits(text: &[u8]) -> bool
    ensures { result ≡ list_all is_ascii_digit text.now }
{
    text.iter().all(|byte| byte.is_ascii_digit())
}

/// What stands before and behind the first such character.
pub(crate) fn split_at_byte(text: &str, mark: char) -> Option<(&str, &str)>
    requires { mark < 128 }
    ensures { option_map {U = List ℕ × List ℕ} (λ p. (p.0.now, p.1.now)) result ≡ spec.split_at mark text.now }
{
    text.split_once(mark)
}
