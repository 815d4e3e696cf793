//! What one play of a program tells of a board's faults.

ghost use Rattle.std.specs.Prelude.{◌≡◌, ◌<◌, ◌≤◌, [], drop, length, map, nat_lt, slice_index_or, true, false};
ghost use Rattle.std.specs.Prelude.{if◌then◌else◌, List, None, IfOk};
ghost use Rattle.std.specs.List.{AllByRecursion, list_any};
ghost use Rattle.svf_programs.specs.Sizes.{program_of};
ghost use Rattle.board_plan.specs.View.{net as planned_net, wiring};
ghost use Rattle.pin_nets.specs.declared.Pin.{Pin as ThePin};
ghost use Rattle.play_model.specs.Play.{play};
ghost use Rattle.board_faults.specs.Faults.{IsFaultOf, IsWayOf};
ghost use Rattle.board_faults.specs.Listing.{left_of};
ghost use Rattle.board_faults.specs.Made.{IsReadyPlan, PowersUp, board_of};
ghost use Rattle.fault_events.specs.Blocks.{noted_in};
ghost use Rattle.fault_events.specs.Captures as events;
ghost use Rattle.fault_events.specs.Captures.{AreLeft, IsUnderWay, Noted};
ghost use Rattle.fault_events.specs.Endings.{and_then, ending_noted};
ghost use Rattle.fault_serving.specs.Serving as spec;
ghost use Rattle.fault_serving.specs.Serving.{ArePlanes, AreTold, BeginsNoted, IsChunk, IsTelling, MayServe, Serves};
ghost use Rattle.fault_serving.specs.Serving.{endings_by, judged_on};

use crate::planing::{NoteWords, captures_behind, net_words, quiet_captures};
use board_faults::{Board, Fault, Faults, Way, next_faults, play_program, ways_of};
use board_plan::{Plan, PlannedDevice, PlannedNet};
use fault_events::{
    Block, Capture, Captures, NetCapture, block_of, net_ending, pulls_of, put_net_captures,
    start_play, way_ending,
};
use play_model::Ending;
use std::alloc::{AllocError, Global};
use svf_programs::Program;

/// What one play of a program tells of a board's faults.
#[derive(Drop)]
pub enum Serving {
    /// Nothing: the board has strings, or the program fails on it.
    Nothing,
    /// What is noted at its captures: they are no more than a block holds.
    Whole(Telling),
    /// They are more, so they are noted block by block, in a play for some faults at a time; what is noted of nets at
    /// the first of them.
    Blocks(Front),
}

/// What is noted of nets at the first captures of a play: of the first block, if it is kept, and by words of more.
#[derive(Drop)]
pub struct Front {
    pub(crate) captures: Vec<NetCapture>,
    pub(crate) planes: Planes,
}

/// What is noted of nets at the first captures of a play, by words, block after block of up to 64; and whether these
/// are all of its captures.
#[derive(Drop)]
pub struct Planes {
    pub(crate) blocks: Vec<Vec<NoteWords>>,
    pub(crate) whole: bool,
}

/// A block of captures, and what is noted of nets at the first 64, by words.
#[derive(Drop)]
pub struct Telling {
    pub(crate) block: Block,
    pub(crate) words: Vec<NoteWords>,
}

/// What one play of a program tells of the faults of a planned board that powers up (asked), and whether that is kept
/// from which `may_list` tells. Refused where memory runs out.
pub fn serving_of(
    alloc: Global,
    plan: &Plan,
    program: &Program,
    listing: bool,
) -> Result<Serving, AllocError>
    requires { PowersUp plan.now }
    ensures { IfOk result (MayServe (program_of program.now) (wiring plan.now)) }
{
    if have_strings(&plan.devices) {
        return Ok(Serving::Nothing);
    }
    match ending_on(alloc, plan, program)? {
        Ending::Pass => by_one_play(alloc, plan, program, listing),
        _ => Ok(Serving::Nothing),
    }
}

/// How a program's play on the board of a plan ends, from power-up.
pub fn ending_on(alloc: Global, plan: &Plan, program: &Program) -> Result<Ending, AllocError>
    requires { PowersUp plan.now }
    ensures { IfOk result (λ e. e ≡ (play (program_of program.now) (board_of (wiring plan.now))).ending) }
{
    let mut board = Board::powered_up(alloc, plan)?;
    Ok(play_program(program, &mut board))
}

/// Whether one of the devices has a string.
fn have_strings(devices: &[PlannedDevice]) -> bool
    ensures { result ≡ list_any (λ d. nat_lt 0 (length d.follows.items)) devices.now }
{
    devices.iter().any(|device| has_strings(device))
}

fn has_strings(device: &PlannedDevice) -> bool
    ensures { result ≡ nat_lt 0 (length device.now.follows.items) }
{
    !device.follows.is_empty()
}

/// So many captures are noted at a time.
const BLOCK: usize = 64;

/// The captures of a play that serves, where they are no more than a block holds; else what is noted of nets at the
/// first of them, and whether the first block of it is kept.
fn by_one_play(
    alloc: Global,
    plan: &Plan,
    program: &Program,
    listing: bool,
) -> Result<Serving, AllocError>
    requires up { PowersUp plan.now }
    requires serves { Serves (program_of program.now) (wiring plan.now) }
    ensures { IfOk result (MayServe (program_of program.now) (wiring plan.now)) }
{
    let mut play = start_play(alloc, plan, program)?;
    let pins = play.next_block(alloc, BLOCK)?;
    let more = play.next_block(alloc, 1)?;
    let all = are_all(&pins, &more);
    let telling = telling_of(alloc, &plan.nets, pins)?;
    if all {
        return Ok(Serving::Whole(telling));
    }
    let captures = kept_if(alloc, listing, telling.block.into_captures());
    let planes = planes_of(alloc, plan, program, most_blocks(listing))?;
    Ok(Serving::Blocks(Front { captures, planes }))
}

/// Whether these captures are no more than a block holds, and none is behind them.
fn are_all(pins: &[Capture], more: &[Capture]) -> bool
    ensures few { result ≡ true → length pins.now ≤ 64 }
    ensures over { result ≡ true → more.now ≡ [] }
{
    match more {
        [] => pins.len() <= BLOCK,
        _ => false,
    }
}

/// Whether these captures are more than a block holds.
fn is_long(captures: &[NetCapture]) -> bool
    ensures { result ≡ false → length captures.now ≤ 64 }
{
    captures.len() > BLOCK
}

/// These captures, if they are to be kept.
fn kept_if(alloc: Global, keep: bool, captures: Vec<NetCapture>) -> Vec<NetCapture>
    ensures { result.items ≡ if keep then captures.items else [] }
{
    if keep { captures } else { Vec::new(alloc) }
}

/// Words are kept of so many blocks, as much as what is noted of nets at the captures of one; of none for lists.
fn most_blocks(listing: bool) -> usize
    ensures { result ≤ 64 }
{
    if listing { 0 } else { 64 }
}

/// What is noted of nets at the first captures of a play, by words, of up to so many blocks; of none from a block on
/// that has more than 64 captures, since those of a step stay together. Refused where memory runs out.
fn planes_of(
    alloc: Global,
    plan: &Plan,
    program: &Program,
    most: usize,
) -> Result<Planes, AllocError>
    requires { PowersUp plan.now }
    ensures { IfOk result (ArePlanes (program_of program.now) (wiring plan.now)) }
{
    let mut blocks = Vec::new(alloc);
    let mut play = start_play(alloc, plan, program)?;
    'rounds: while blocks.len() < most {
        let next = next_nets(alloc, &plan.nets, &mut play)?;
        if next.is_empty() {
            return Ok(Planes {
                blocks,
                whole: true,
            });
        }
        if is_long(&next) {
            return Ok(Planes {
                blocks,
                whole: false,
            });
        }
        let words = net_words(alloc, &next, plan.nets.len())?;
        blocks.push(words)?;
    }
    Ok(Planes {
        blocks,
        whole: false,
    })
}

/// What is noted of these nets at the next captures of a play: at 64 or a few more, since those of a step stay
/// together; at fewer at the end of the program, and at none behind it. What is noted of pins is kept of one step at a
/// time. Refused where memory runs out.
fn next_nets(
    alloc: Global,
    nets: &[PlannedNet],
    play: &mut Captures<'_>,
) -> Result<Vec<NetCapture>, AllocError>
    requires { IsUnderWay play.old }
    ensures { (cs : List Noted) (pins : List ThePin) → AreLeft cs pins play.old → IfOk result
        (λ v. BeginsNoted (map planned_net nets.now) cs pins play.old v.items play.new) }
{
    let mut list = Vec::new(alloc);
    'rounds: while list.len() < BLOCK {
        let next = play.next_block(alloc, 1)?;
        if next.is_empty() {
            return Ok(list);
        }
        put_net_captures(alloc, nets, &next, &mut list)?;
    }
    Ok(list)
}

/// Captures of a play on these nets, with the words of the nets.
fn telling_of(alloc: Global, nets: &[PlannedNet], pins: Vec<Capture>) -> Result<Telling, AllocError>
    ensures telling { IfOk result (IsTelling (map planned_net nets.now)) }
    ensures noted { IfOk result (λ t. noted_in t.block ≡ map events.seen pins.items) }
{
    let block = block_of(alloc, nets, pins)?;
    let words = net_words(alloc, block.captures(), nets.len())?;
    Ok(Telling { block, words })
}

/// How a program ends in each of these ways (asked) in which faults of a planned board may show, as far as one play of
/// the board tells it. Refused where memory runs out.
pub fn told_endings(
    alloc: Global,
    serving: &Serving,
    plan: &Plan,
    program: &Program,
    ways: &[Way],
) -> Result<Vec<Option<Ending>>, AllocError>
    requires ready { IsReadyPlan plan.now }
    requires serving { MayServe (program_of program.now) (wiring plan.now) serving.now }
    requires ways { AllByRecursion (IsWayOf (wiring plan.now).nets) ways.now }
    ensures { IfOk result (λ v. AreTold (program_of program.now) (wiring plan.now) ways.now v.items) }
{
    // For the proof alone: what the type keeps of a program's steps.
    let _ = program.len();
    match serving {
        Serving::Nothing => Ok(Vec::from_elem(alloc, None, ways.len())?),
        Serving::Whole(telling) => {
            let endings = Vec::from_elem(alloc, Some(Ending::Pass), ways.len())?;
            Ok(judged(telling, &plan.nets, ways, endings))
        }
        Serving::Blocks(front) => {
            let most = captures_at_once(front.planes.whole);
            all_endings(alloc, plan, program, ways, most)
        }
    }
}

/// So many captures are noted at a time: fewer where words have all captures of a play, and few ways are of bridges.
fn captures_at_once(whole: bool) -> usize
    ensures { 0 < result }
{
    if whole { 32 } else { BLOCK }
}

/// How a program ends in each of these ways by all captures of its play on a planned board, so many (some, asked) at a
/// time.
fn all_endings(
    alloc: Global,
    plan: &Plan,
    program: &Program,
    ways: &[Way],
    most: usize,
) -> Result<Vec<Option<Ending>>, AllocError>
    requires up { PowersUp plan.now }
    requires some { 0 < most }
    ensures { IfOk result (λ v. v.items
        ≡ endings_by (wiring plan.now).nets (events.captures (program_of program.now) (wiring plan.now)) ways.now) }
{
    let mut endings = Vec::from_elem(alloc, Some(Ending::Pass), ways.len())?;
    let mut play = start_play(alloc, plan, program)?;
    'rounds: while is_any_open(&endings) {
        let pins = play.next_block(alloc, most)?;
        if pins.is_empty() {
            return Ok(endings);
        }
        let telling = telling_of(alloc, &plan.nets, pins)?;
        endings = judged(&telling, &plan.nets, ways, endings);
    }
    Ok(endings)
}

/// Whether a way passes so far.
fn is_any_open(endings: &[Option<Ending>]) -> bool
    ensures { result ≡ list_any spec.is_open endings.now }
{
    endings.iter().any(|ending| is_open(*ending))
}

fn is_open(ending: Option<Ending>) -> bool
    ensures { result ≡ spec.is_open ending }
{
    matches!(ending, Some(Ending::Pass))
}

/// How a program ends in each of these ways by a block more.
fn judged(
    telling: &Telling,
    nets: &[PlannedNet],
    ways: &[Way],
    endings: Vec<Option<Ending>>,
) -> Vec<Option<Ending>>
    requires telling { IsTelling (map planned_net nets.now) telling.now }
    requires long { length endings.items ≡ length ways.now }
    ensures { result.items ≡ judged_on (map planned_net nets.now) (noted_in telling.now.block) ways.now endings.items }
{
    let mut all = endings;
    judge_block(telling, nets, ways, &mut all);
    all
}

/// Judges ways that passed so far by the next block.
fn judge_block(telling: &Telling, nets: &[PlannedNet], ways: &[Way], endings: &mut [Option<Ending>])
    requires telling { IsTelling (map planned_net nets.now) telling.now }
    requires long { length endings.old ≡ length ways.now }
    ensures { endings.new ≡ judged_on (map planned_net nets.now) (noted_in telling.now.block) ways.now endings.old }
{
    'ways: for k in 0..ways.len() {
        endings[k] = ending_then(telling, nets, ways[k], endings[k]);
    }
}

/// How a program ends in a way by a block, where so far it ends so.
fn ending_then(
    telling: &Telling,
    nets: &[PlannedNet],
    way: Way,
    before: Option<Ending>,
) -> Option<Ending>
    requires { IsTelling (map planned_net nets.now) telling.now }
    ensures { result ≡ and_then before (ending_noted (map planned_net nets.now) way (noted_in telling.now.block)) }
{
    match before {
        None => None,
        Some(Ending::Pass) => told_ending(telling, nets, way),
        Some(ending) => Some(ending),
    }
}

/// How a program that passes ends on the board where a fault of these nets shows in a way, by a block of its
/// captures; nothing where that does not tell. The first captures at which a bridge tells nothing are passed over.
fn told_ending(telling: &Telling, nets: &[PlannedNet], way: Way) -> Option<Ending>
    requires { IsTelling (map planned_net nets.now) telling.now }
    ensures { result ≡ ending_noted (map planned_net nets.now) way (noted_in telling.now.block) }
{
    match way {
        Way::Short {
            first,
            second,
            winner,
        } => {
            let quiet = quiet_captures(&telling.words, nets, first, second, winner);
            let behind = captures_behind(telling.block.captures(), quiet);
            net_ending(behind, way, pulls_of(nets, first, second), first, second)
        }
        _ => way_ending(&telling.block, nets, way),
    }
}

/// So many faults at a time where a program is played for them, and where its captures are kept.
const MANY: usize = 262_144;

const FEW: usize = 1_024;

/// Some faults of a board, one after another, and how a program ends in each of their ways, way after way, as far as
/// one play tells it.
#[derive(Drop)]
pub struct Chunk {
    pub faults: Vec<Fault>,
    pub endings: Vec<Option<Ending>>,
}

/// The next of the faults of a planned board that are left, and what one play tells of them; none where none is left.
/// Refused where memory runs out. Asks that the plan is ready, as those are that board files make.
pub fn next_chunk(
    alloc: Global,
    serving: &Serving,
    plan: &Plan,
    program: &Program,
    left: &mut Faults<'_>,
) -> Result<Chunk, AllocError>
    requires ready { IsReadyPlan plan.now }
    requires serving { MayServe (program_of program.now) (wiring plan.now) serving.now }
    requires faults { AllByRecursion (IsFaultOf (wiring plan.now).nets) (left_of left.old) }
    ensures { IfOk result (λ c. IsChunk (program_of program.now) (wiring plan.now) (left_of left.old) c
        (left_of left.new)) }
{
    let faults = next_faults(alloc, left, most_of(serving))?;
    let ways = ways_of(alloc, &faults)?;
    let endings = told_endings(alloc, serving, plan, program, &ways)?;
    Ok(Chunk { faults, endings })
}

/// So many faults at a time.
pub(crate) fn most_of(serving: &Serving) -> usize
    ensures { 0 < result }
{
    match serving {
        Serving::Blocks(_) => MANY,
        Serving::Nothing | Serving::Whole(_) => FEW,
    }
}

/// Four of each net, and no fewer than some.
pub(crate) fn few_of(nets: usize) -> usize
    ensures { 0 < result }
{
    let few = nets.saturating_mul(4);
    if few < FEW {
        return FEW;
    }
    few
}

/// What is noted of nets at the first captures, as far as it is kept.
pub(crate) fn kept_captures(serving: &Serving) -> &[NetCapture]
    ensures { result.now ≡ spec.kept_captures serving.now }
{
    match serving {
        Serving::Nothing => &[],
        Serving::Whole(telling) => telling.block.captures(),
        Serving::Blocks(front) => &front.captures,
    }
}

/// The same by words, block after block.
pub(crate) fn first_blocks(serving: &Serving) -> &[Vec<NoteWords>]
    ensures { result.now ≡ spec.first_blocks serving.now }
{
    match serving {
        Serving::Nothing => &[],
        Serving::Whole(telling) => std::slice::from_ref(&telling.words),
        Serving::Blocks(front) => &front.planes.blocks,
    }
}

/// Whether words have all captures of a play.
pub(crate) fn is_whole(serving: &Serving) -> bool
    ensures { result ≡ spec.is_whole serving.now }
{
    match serving {
        Serving::Nothing => false,
        Serving::Whole(_) => true,
        Serving::Blocks(front) => front.planes.whole,
    }
}

/// What is told behind so many ways.
pub fn told_behind(told: &[Option<Ending>], n: usize) -> &[Option<Ending>]
    ensures { result.now ≡ drop n told.now }
{
    if n < told.len() { &told[n..] } else { &[] }
}

/// What is told of the k-th way.
pub fn told_at(told: &[Option<Ending>], k: usize) -> Option<Ending>
    ensures { result ≡ slice_index_or told.now k None }
{
    match told.get(k) {
        Some(ending) => *ending,
        None => None,
    }
}
