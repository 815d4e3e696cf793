//! What the cells of a boundary register capture, 64 of them at a time.

ghost use Rattle.std.specs.Prelude.{◌≡◌, ◌≢◌, ◌<◌, ◌≤◌, ℕ, IfOk, length, if◌then◌else◌, false};
ghost use Rattle.jt_bits.specs.Packed.{has_bit};
ghost use Rattle.boundary.specs.Cells as cells;
ghost use Rattle.boundary.specs.Masks.{AreMasks, CapturesEach, IsWordOf, chosen, inner_cells, is_inner, is_sighted};
ghost use Rattle.boundary.specs.Masks.{sighted_cells, sighted_port};
ghost use Rattle.boundary.specs.Plain.{has_no_control, plain_cells};
ghost use Rattle.boundary.specs.Resets.{reset_cells};

use crate::resets::is_reset;
use crate::sights::Sights;
use bsdl_device::{Cell, Control3, Function};
use chip_registers::Mode;
use jt_bits::Bits;
use std::alloc::{AllocError, Global};

/// Which cells capture what their port sees, which their core's bit in every mode, which have no control, and which a
/// reset gives their disabling value: a bit for each cell.
#[derive(Drop)]
pub(crate) struct Masks {
    pub(crate) sighted: Bits,
    pub(crate) inner: Bits,
    pub(crate) plain: Bits,
    pub(crate) reset: Bits,
}

/// The masks of these cells. Refuses for want of memory alone.
pub(crate) fn masks_of(alloc: Global, list: &[Cell]) -> Result<Masks, AllocError>
    ensures masks { IfOk result (λ m. AreMasks list.now m.sighted m.inner) }
    ensures plain { IfOk result (λ m. m.plain ≡ plain_cells list.now) }
    ensures reset { IfOk result (λ m. m.reset ≡ reset_cells list.now) }
{
    let mut sighted = Bits::zeros(alloc, list.len())?;
    let mut inner = Bits::zeros(alloc, list.len())?;
    let mut plain = Bits::zeros(alloc, list.len())?;
    let mut reset = Bits::zeros(alloc, list.len())?;
    let mut at = 0;
    while at < list.len() {
        let n = (list.len() - at).min(64);
        let words = mask_words(&list[at..at + n]);
        sighted.put_run(at, words.sighted, n);
        inner.put_run(at, words.inner, n);
        plain.put_run(at, words.plain, n);
        reset.put_run(at, words.reset, n);
        at += n;
    }
    Ok(Masks {
        sighted,
        inner,
        plain,
        reset,
    })
}

/// What the masks have of up to 64 cells: bit `j` of each word is that of cell `j` of these.
#[derive(Drop)]
struct MaskWords {
    sighted: u64,
    inner: u64,
    plain: u64,
    reset: u64,
}

fn mask_words(cells: &[Cell]) -> MaskWords
    requires { length cells.now ≤ 64 }
    ensures sighted { IsWordOf (sighted_cells cells.now) result.sighted }
    ensures inner { IsWordOf (inner_cells cells.now) result.inner }
    ensures plain { IsWordOf (plain_cells cells.now) result.plain }
    ensures reset { IsWordOf (reset_cells cells.now) result.reset }
{
    let mut words = MaskWords {
        sighted: 0,
        inner: 0,
        plain: 0,
        reset: 0,
    };
    for j in 0..cells.len() {
        let (sees, takes_core) = marks(cells[j].port, cells[j].function);
        words.sighted = with_mark(words.sighted, j, sees);
        words.inner = with_mark(words.inner, j, takes_core);
        words.plain = with_mark(words.plain, j, has_no_control(cells[j].control));
        words.reset = with_mark(words.reset, j, is_reset(cells[j].function));
    }
    words
}

/// The word with bit `j`, which is 0 so far, as a cell is marked.
pub(crate) fn with_mark(word: u64, j: usize, is_marked: bool) -> u64
    requires { j < 64 }
    ensures here { has_bit word j ≡ false → has_bit result j ≡ is_marked }
    ensures others { (k : ℕ) → k < 64 → k ≢ j → has_bit result k ≡ has_bit word k }
{
    if is_marked { word | 1 << j } else { word }
}

fn has_no_control(control: Option<Control3>) -> bool
    ensures { result ≡ has_no_control control }
{
    match control {
        None => true,
        Some(_) => false,
    }
}

/// Whether a cell captures what its port sees, and whether it captures its core's bit in every mode.
fn marks(port: Option<usize>, function: Function) -> (bool, bool)
    ensures sighted { result.0 ≡ is_sighted port function }
    ensures inner { result.1 ≡ is_inner function }
{
    match (port, function) {
        (Some(_), Function::Input | Function::Clock | Function::ObserveOnly | Function::Bidir) => (
            true, false,
        ),
        (_, Function::Internal) => (false, true),
        _ => (false, false),
    }
}

/// The port of a cell that captures what its port sees; of any other cell none.
pub fn sighted_port(port: Option<usize>, function: Function) -> Option<usize>
    ensures { result ≡ sighted_port port function }
{
    if marks(port, function).0 { port } else { None }
}

/// Whether a capture in this mode takes the update stage: under EXTEST, on a device whose board file says so.
pub(crate) fn takes_update(extest_update: bool, mode: Mode) -> bool
    ensures { result ≡ cells.takes_update extest_update mode }
{
    extest_update && matches!(mode, Mode::Extest)
}

/// What an output or control cell captures: its update bit, or its core's.
pub(crate) fn held_bits<'a>(from_update: bool, update: &'a Bits, core: &'a Bits) -> &'a Bits
    ensures { result.now ≡ (if from_update then update.now else core.now) }
{
    if from_update { update } else { core }
}

/// Each cell of the stage takes what it captures.
pub(crate) fn capture_all(masks: &Masks, seen: &Sights, held: &Bits, core: &Bits, stage: &mut Bits)
    requires { length seen.now ≡ length stage.old }
    ensures { CapturesEach masks.now.sighted masks.now.inner seen.now held.now core.now stage.old stage.new }
{
    let len = stage.len();
    let mut at = 0;
    while at < len {
        let n = (len - at).min(64);
        let word = captured_word(
            masks.sighted.word_at(at),
            masks.inner.word_at(at),
            seen.word_at(at),
            held.word_at(at),
            core.word_at(at),
        );
        stage.put_run(at, word, n);
        at += n;
    }
}

/// What 64 cells capture.
fn captured_word(sighted: u64, inner: u64, seen: u64, held: u64, core: u64) -> u64
    ensures { (j : ℕ) → j < 64 → has_bit result j
        ≡ chosen (has_bit sighted j) (has_bit inner j) (has_bit seen j) (has_bit held j) (has_bit core j) }
{
    let unseen = held & !inner | core & inner;
    seen & sighted | unseen & !sighted
}
