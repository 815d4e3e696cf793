//! What is drawn of the lines of the TAP, and how it goes on.

ghost use Rattle.std.specs.Prelude.{◌≡◌, min, suc};
ghost use Rattle.play_drawing.specs.Drawing as spec;
ghost use Rattle.play_drawing.specs.Drawing.{is_drawn_so, is_resting, lasts, later, marks_behind, rests_behind};
ghost use Rattle.play_drawing.specs.Drawing.{tck_drawn};
ghost use Rattle.play_drawing.specs.Pens.{plain};

use bitbang_protocol::Message;
use board_chain::Chain;
use jt_board::Board;
use wave_files::Shown;

/// So many messages of a rest are drawn.
pub(crate) const DRAWN_RESTS: u64 = 128;
/// The last time that is told: readers keep it in 63 bits.
const LATEST: u64 = 9_223_372_036_854_775_806;

/// What is drawn of the lines that are written: their levels, none where they are unknown; the time in picoseconds; and
/// how many messages in a row moved nothing but TCK on a board that rests.
#[derive(Debug, Clone, Copy, PartialEq, Eq)]
pub struct Marks {
    pub tck: Option<bool>,
    pub tms: Option<bool>,
    pub tdi: Option<bool>,
    pub time: u64,
    pub rested: u64,
}

/// What is written for the lines, as they are drawn, of a board.
pub(crate) fn shown_on(marks: Marks, board: &Board) -> Shown
    ensures { result ≡ spec.shown (plain marks board.now) }
{
    Shown::of(
        marks.tck,
        marks.tms,
        marks.tdi,
        board.snapshot().trst(),
        board.chain(),
    )
}

/// The lines as they are drawn behind a message that left TCK and the devices so.
pub(crate) fn marks_after(message: Message, marks: Marks, tck: bool, chain: &Chain) -> Marks
    ensures { result ≡ marks_behind message marks tck chain.now.chips }
{
    let rested = rests_after(message, marks, chain);
    Marks {
        tck: tck_of(rested, tck),
        tms: tms_after(message, marks.tms),
        tdi: tdi_after(message, marks.tdi),
        time: marks.time,
        rested,
    }
}

/// How many messages in a row only moved TCK on a board that rests.
fn rests_after(message: Message, marks: Marks, chain: &Chain) -> u64
    ensures { result ≡ rests_behind message marks chain.now.chips }
{
    match message {
        Message::Write { tms, tdi, .. } => {
            if draws_so(marks.tms, tms) && draws_so(marks.tdi, tdi) && rests(chain) {
                one_more(marks.rested)
            } else {
                0
            }
        }
        _ => 0,
    }
}

/// One message of a rest more, counted to one more than are drawn.
pub(crate) fn one_more(rested: u64) -> u64
    ensures { result ≡ min (suc rested) (suc spec.drawn_rests) }
{
    if rested > DRAWN_RESTS {
        DRAWN_RESTS + 1
    } else {
        rested + 1
    }
}

/// Whether a line is written as it was drawn.
pub(crate) fn draws_so(drawn: Option<bool>, level: bool) -> bool
    ensures { result ≡ is_drawn_so drawn level }
{
    match drawn {
        Some(true) => level,
        Some(false) => !level,
        None => false,
    }
}

/// Whether every device stands in a stable state.
fn rests(chain: &Chain) -> bool
    ensures { result ≡ is_resting chain.now.chips }
{
    for i in 0..chain.devices() {
        if !chain.chip(i).state().is_stable() {
            return false;
        }
    }
    true
}

/// TCK as it is drawn after so many messages of a rest.
pub(crate) fn tck_of(rested: u64, tck: bool) -> Option<bool>
    ensures { result ≡ tck_drawn rested tck }
{
    if rested <= DRAWN_RESTS {
        Some(tck)
    } else {
        None
    }
}

fn tms_after(message: Message, was: Option<bool>) -> Option<bool>
    ensures { result ≡ spec.tms_behind message was }
{
    match message {
        Message::Write { tms, .. } => Some(tms),
        _ => was,
    }
}

fn tdi_after(message: Message, was: Option<bool>) -> Option<bool>
    ensures { result ≡ spec.tdi_behind message was }
{
    match message {
        Message::Write { tdi, .. } => Some(tdi),
        _ => was,
    }
}

/// How long a message lasts.
pub(crate) fn duration(period: u64, message: Message) -> u64
    ensures { result ≡ lasts period message }
{
    match message {
        Message::Write { tck: false, .. } => period - period / 2,
        Message::Write { tck: true, .. } => period / 2,
        Message::Lines { .. } => period,
        _ => 0,
    }
}

/// The time so much later.
pub(crate) fn time_after(time: u64, more: u64) -> u64
    ensures { result ≡ later time more }
{
    time.saturating_add(more).min(LATEST)
}
