//! Where the statements of a text start, asked for one after another.

ghost use Rattle.std.specs.Prelude.{◌≡◌, ◌+◌, ◌≤◌, ◌<◌, ◌^◌};
ghost use Rattle.refusal_places.specs.Starts as spec;
ghost use Rattle.play_explained.specs.Passed.{IsAt, PassesOne};

use output_words::Position;
use refusal_places::StatementPositions;

/// The statements of a text up to some place: how many they are, where the last of them starts, and those behind it.
#[derive(Debug, Clone, Copy)]
pub(crate) struct Passed<'a> {
    count: usize,
    last: Option<Position>,
    left: StatementPositions<'a>,
}

/// None of the statements of a text.
pub(crate) fn none_passed(text: &[u8]) -> Passed<'_>
    ensures at { IsAt text.now result }
    ensures none { result.count ≡ 0 }
{
    Passed {
        count: 0,
        last: None,
        left: StatementPositions::new(text),
    }
}

/// Where the statement of a number starts, and the statements up to it. Where the numbers that are asked for rise, one
/// pass over the text finds them all.
pub(crate) fn position_from<'a>(
    text: &'a [u8],
    passed: Passed<'a>,
    number: usize,
) -> (Option<Position>, Passed<'a>)
    requires { IsAt text.now passed }
    ensures position { result.0 ≡ spec.statement_position text.now number }
    ensures at { IsAt text.now result.1 }
{
    if number < passed.count {
        position_behind(text, none_passed(text), number)
    } else {
        position_behind(text, passed, number)
    }
}

/// Where the statement of a number starts that was not passed, or last, and the statements up to it.
fn position_behind<'a>(
    text: &'a [u8],
    passed: Passed<'a>,
    number: usize,
) -> (Option<Position>, Passed<'a>)
    requires at { IsAt text.now passed }
    requires ahead { passed.count ≤ number }
    ensures position { result.0 ≡ spec.statement_position text.now number }
    ensures at { IsAt text.now result.1 }
{
    let mut here = passed;
    while here.count < number {
        match pass(here) {
            Some(next) => here = next,
            None => return (None, here),
        }
    }
    (here.last, here)
}

/// One statement more, if there is one.
fn pass(passed: Passed<'_>) -> Option<Passed<'_>>
    requires { passed.count + 1 < 2 ^ 64 }
    ensures { PassesOne passed.entry result }
{
    let mut left = passed.left;
    match left.next() {
        Some(position) => Some(Passed {
            count: passed.count + 1,
            last: Some(position),
            left,
        }),
        None => None,
    }
}
