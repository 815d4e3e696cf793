//! Strings of cores that follow, as the board file writes them: `Q = D`, or `Q = !D`.
ghost use Rattle.std.specs.Prelude.{◌≡◌, option_map, IfSome};
ghost use Rattle.board_tables.specs.FollowTexts as spec;
ghost use Rattle.board_tables.specs.WordView.{HasDigits, follow as follow_value, source as source_value};

use crate::pins::{PortText, port_of, split_at_byte};

/// The port whose core bit follows, the port that it follows, and whether it is the opposite of what that one sees.
#[derive(Debug, Clone, Copy)]
pub struct FollowText<'a> {
    pub target: PortText<'a>,
    pub source: PortText<'a>,
    pub inverted: bool,
}

/// The string that a text spells: two ports with `=` between them, the second behind a `!` where it is inverted. Spaces
/// are free at both ends and around `=` and `!`.
#[tactic(auto, unfolding(crate::specs::FollowTexts::follow_of))]
pub fn follow_of(text: &str) -> Option<FollowText<'_>>
    ensures string { option_map follow_value result ≡ spec.follow_of text.now }
    ensures target { IfSome result (λ f. HasDigits f.target) }
    ensures source { IfSome result (λ f. HasDigits f.source) }
{
    let (target, source) = split_at_byte(text, '=')?;
    let target = port_of(trimmed(target))?;
    let (source, inverted) = source_of(trimmed(source))?;
    Some(FollowText {
        target,
        source,
        inverted,
    })
}

/// The target of a string as its text spells it: what stands before the `=`, without the spaces at both ends.
pub fn target_text(text: &str) -> &str
    ensures { result.now ≡ spec.target_text text.now }
{
    match split_at_byte(text, '=') {
        Some((target, _)) => trimmed(target),
        None => trimmed(text),
    }
}

/// A source, and whether a `!` before it says that it is inverted.
#[tactic(auto, unfolding(crate::specs::FollowTexts::source_of))]
fn source_of(text: &str) -> Option<(PortText<'_>, bool)>
    ensures source { option_map source_value result ≡ spec.source_of text.now }
    ensures digits { IfSome result (λ s. HasDigits s.0) }
{
    match behind_mark(text) {
        Some(rest) => Some((port_of(trimmed(rest))?, true)),
        None => Some((port_of(text)?, false)),
    }
}

/// What stands behind a `!`, if the text begins with one.
fn behind_mark(text: &str) -> Option<&str>
    ensures { option_map (λ t. t.now) result ≡ spec.behind_mark text.now }
{
    text.strip_prefix('!')
}

/// The text without the spaces at both ends.
fn trimmed(text: &str) -> &str
    ensures { result.now ≡ spec.trimmed text.now }
{
    text.trim_start_matches(' ').trim_end_matches(' ')
}
