// One board: its record, and a sample of it, by value and then where the record lies (01, The stack and its readings; When a fault latches and lets go; 02, tickets 3, 5, 7 and 8).
#![tactic(auto)]

ghost use Rattle.std.specs.Prelude.{◌≡◌};
ghost use Rattle.latches.specs.Latches.{latches_of, latches_byte};
ghost use Rattle.board.specs.Shunt.{shunt_above, shunt_outside};
ghost use Rattle.board.specs.Plan.{plan_of, bad_plan, stand_alone, host, garden_plan, is_host, is_garden};
ghost use Rattle.board.specs.Host.{may_dsg, may_chg, status_by, cleared_of};
ghost use Rattle.board.specs.Sample.{first_latches, fresh, currents_next, bad_board, control_up, sample_of};
ghost use Rattle.board.specs.Latchings.{number_next};
ghost use Rattle.board.specs.Way.{out_of_range_by, quiet_of, look_of, last_by, rested_of, latches_by, lowest_if, accepted_by, grown_of, entered_of, entering, entered_by};

use cells::{Cell, Span, Swept};
use garden::Garden;
use journal::Journal;
use latches::{Latches, Tallies};
use refusal::Refusal;
use settings::Settings;

// The runs of the two current conditions.
#[repr(C)]
#[derive(Clone, Copy)]
pub struct Currents {
    pub ocd: u32,
    pub scd: u32,
}

// What is kept of the last accepted sample: its lowest and its highest cell, and its shunt.
#[repr(C)]
#[derive(Clone, Copy)]
pub struct Last {
    pub low: u32,
    pub high: u32,
    pub shunt: i32,
}

// A board's record, as C has it: memory is fixed, so the count of its cells stands beside ten of them. The latches are the low five bits of register 0, the flagged cells a number, and control is register 1; the accepted
// samples are counted for the journal.
#[repr(C)]
#[derive(Clone, Copy)]
pub struct Board {
    pub count: u8,
    pub latches: u8,
    pub cycles: u8,
    pub kind: u8,
    pub flags: u16,
    pub working: Settings,
    pub staged: Settings,
    pub currents: Currents,
    pub cells: [Cell; 10],
    pub last: Last,
    pub control: u8,
    pub garden: Garden,
    pub tallies: Tallies,
    pub samples: u32,
    pub journal: Journal,
}

// What a sample reads beside the cells.
#[repr(C)]
#[derive(Clone, Copy)]
pub struct Readings {
    pub elapsed: u32,
    pub shunt: i32,
    pub thermistor: u32,
    pub load: u32,
}

// What an accepted sample answers: register 0, and the bled cells as a number.
#[repr(C)]
#[derive(Clone, Copy, Debug, PartialEq, Eq)]
pub struct Sampled {
    pub status: u8,
    pub bled: u16,
}

// What a look at a good sample finds: it is quiet, or a garden board's, or it may change the board. The lowest and the highest cell are handed on.
#[derive(Clone, Copy)]
enum Found {
    Quiet(Span),
    Grows(Span),
    Changes(Span),
}

// What an accepted sample leaves to be entered: its answer, the faults that latched, and of OV and UV the lowest cell that made them, or 0, as an
// entry of the journal has it.
#[derive(Clone, Copy)]
struct Note {
    answer: Sampled,
    up: Latches,
    ov: u8,
    uv: u8,
}

// The board after a quiet sample, and its answer.
#[derive(Clone, Copy)]
struct Rested {
    board: Board,
    answer: Sampled,
}

// The board after any other accepted sample, its journal as it was, and what is to be entered.
#[derive(Clone, Copy)]
struct Noted {
    board: Board,
    note: Note,
}

// ---- a plan, as one number, as C hands it over in a list: a byte each for cells, kind, row and trigger

// The kinds of board beside the stand-alone one, which is 0. No enum: C's records and plans hold any byte, and each is answered. A function for each is a name of the paper, and no plainer as one with a number.
const HOST: u8 = 1;

const GARDEN: u8 = 2;

pub fn is_host(kind: u8) -> bool
    ensures { result ≡ is_host kind }
{
    kind == HOST
}

pub fn is_garden(kind: u8) -> bool
    ensures { result ≡ is_garden kind }
{
    kind == GARDEN
}

// What a board is to be: its kind and its cells, and of a garden board its row of the device table and its trigger.
#[derive(Clone, Copy, Debug, PartialEq, Eq)]
pub struct Plan {
    pub kind: u8,
    pub cells: u8,
    pub row: u8,
    pub trigger: u8,
}

impl From<u32> for Plan {
    ghost from_gives = { λ n p. p ≡ plan_of n };

    fn from(n: u32) -> Plan {
        let [cells, kind, row, trigger] = n.to_le_bytes();
        Plan {
            kind,
            cells,
            row,
            trigger,
        }
    }
}

// The plans one by one, a function for each that C's header has a constructor for: README.md names all three. A plan of so many cells fits its byte, or it is
// 0, which is a plan that nothing opens.
pub fn stand_alone(cells: u32) -> u32
    ensures { result ≡ stand_alone cells }
{
    if cells < 256 { cells } else { 0 }
}

pub fn host(cells: u32) -> u32
    ensures { result ≡ host cells }
{
    if cells < 256 {
        u32::from_le_bytes([cells as u8, HOST, 0, 0])
    } else {
        0
    }
}

// A garden board by its row of the device table and its trigger, which fit their bytes too.
pub fn garden_plan(cells: u32, row: u32, trigger: u32) -> u32
    ensures { result ≡ garden_plan cells row trigger }
{
    if (cells < 256) & (row < 256) & (trigger < 256) {
        return u32::from_le_bytes([cells as u8, GARDEN, row as u8, trigger as u8]);
    }
    0
}

// A garden board starts with OV latched.
fn first_latches(kind: u8) -> u8
    ensures { result ≡ first_latches kind }
{
    if is_garden(kind) { 4 } else { 0 }
}

// A board as it starts by its plan.
#[tactic(auto, unfolding(crate::specs::Sample::fresh))]
pub fn fresh_board(plan: u32) -> Board
    ensures { result ≡ fresh plan }
{
    let plan = Plan::from(plan);
    Board {
        count: plan.cells,
        latches: first_latches(plan.kind),
        cycles: 0,
        kind: plan.kind,
        flags: 0,
        working: Settings::FACTORY,
        staged: Settings::FACTORY,
        currents: Currents { ocd: 0, scd: 0 },
        cells: cells::fresh_cells(),
        // no sample yet, by numbers at which nothing is over: C's record has no place for an Option
        last: Last {
            low: 0,
            high: 4294967295,
            shunt: 2147483647,
        },
        control: 0,
        garden: Garden {
            row: plan.row,
            trigger: plan.trigger,
            ov_back: 0,
            uv_back: 0,
        },
        tallies: Tallies {
            scd: 0,
            ocd: 0,
            ov: 0,
            uv: 0,
            ot: 0,
        },
        samples: 0,
        journal: journal::blank(),
    }
}

// No board is so made: each kind has its own range of cells, and a garden board a row and a trigger.
fn bad_make(p: Plan) -> bool
    ensures { result ≡ bad_plan p }
{
    if is_garden(p.kind) {
        return ((p.cells < 3) | (5 < p.cells)) | (2 < p.row) | (p.trigger < 1);
    }
    (1 < p.kind) | ((p.cells < 5) | (10 < p.cells))
}

// Which record is bad: one that no opening gives.
pub fn bad_board(b: &Board) -> bool
    ensures { result ≡ bad_board b.now }
{
    bad_make(Plan {
        kind: b.kind,
        cells: b.count,
        row: b.garden.row,
        trigger: b.garden.trigger,
    })
}

// Which plan is bad. A plan says what a board is to be.
pub fn bad_plan(plan: u32) -> bool
    ensures { result ≡ bad_plan (plan_of plan) }
{
    bad_make(Plan::from(plan))
}

// ---- what a host board has beside a stand-alone one

impl Board {
    // DSG and CHG may be on: a method each, as docs/TRACE.md names both; with the bit handed in they would be no plainer.
    pub fn may_dsg(&self) -> bool
        ensures { result ≡ may_dsg self.now.kind self.now.control }
    {
        !is_host(self.kind) | (self.control / 2 % 2 == 1)
    }

    pub fn may_chg(&self) -> bool
        ensures { result ≡ may_chg self.now.kind self.now.control }
    {
        !is_host(self.kind) | (self.control / 4 % 2 == 1)
    }

    // Register 0.
    pub fn status(&self) -> u8
        ensures { result ≡ status_by self.now.kind self.now.control (latches_of self.now.latches) }
    {
        latches::status_of(self.may_dsg(), self.may_chg(), self.latches)
    }
}

// The latches without those whose condition is over on the last accepted sample.
#[tactic(auto, unfolding(crate::specs::Host::cleared_of))]
pub fn cleared(s: Settings, last: Last, latches: u8) -> u8
    ensures { result ≡ latches_byte (cleared_of s last (latches_of latches)) }
{
    let old = latches::latches_of(latches);
    let scd_over = !shunt_above(last.shunt, s.scd_level());
    let ocd_over = !shunt_above(last.shunt, s.ocd_level());
    let ov_over = last.high < s.ov_level();
    let uv_over = s.uv_level() < last.low;
    latches::byte_of(Latches {
        scd: !scd_over & old.scd,
        ocd: !ocd_over & old.ocd,
        ov: !ov_over & old.ov,
        uv: !uv_over & old.uv,
        ot: old.ot,
    })
}

// Register 1 after a sample at which these faults latched.
fn control_up(b: &Board, up: Latches) -> u8
    ensures { result ≡ control_up b.now up }
{
    if is_host(b.kind) {
        return latches::control_next(b.control, up);
    }
    b.control
}

fn last_by(x: Readings, span: Span) -> Last
    ensures { result ≡ last_by x span }
{
    Last {
        low: span.low,
        high: span.high,
        shunt: x.shunt,
    }
}

// ---- a sample; its readings and cells stand apart, as `sample_board`, which README.md names, takes C's record by value and a lent list; the span is what
// `look` finds of the cells and hands on

// The number of the next accepted sample; at its top it stays. With a name, since docs/TRACE.md has it and the edit `number_wraps` is refused at it.
fn number_next(samples: u32) -> u32
    ensures { result ≡ number_next samples }
{
    samples.saturating_add(1)
}

// The shunt reads above a level; no charge current does.
fn shunt_above(shunt: i32, level: u32) -> bool
    ensures { result ≡ shunt_above level shunt }
{
    if shunt < 0 {
        return false;
    }
    level < shunt as u32
}

fn shunt_outside(shunt: i32) -> bool
    ensures { result ≡ shunt_outside shunt }
{
    (shunt < -500000) | (500000 < shunt)
}

#[tactic(auto, unfolding(crate::specs::Sample::currents_next))]
fn currents_next(s: Settings, runs: Currents, x: Readings) -> Currents
    ensures { result ≡ currents_next s runs x }
{
    Currents {
        ocd: runs::advance(runs.ocd, shunt_above(x.shunt, s.ocd_level()), x.elapsed),
        scd: runs::advance(runs.scd, shunt_above(x.shunt, s.scd_level()), x.elapsed),
    }
}

// Seven parameters, as the definition and the law `latches-by` have them: a struct of them would be made for the one call.
#[tactic(auto, unfolding(crate::specs::Way::latches_by))]
fn latches_next(
    s: Settings,
    swept: Swept,
    span: Span,
    runs: Currents,
    x: Readings,
    kind: u8,
    old: Latches,
) -> Latches
    ensures { result ≡ latches_by s swept span runs x kind old }
{
    let scd_stood = runs::has_stood(s.scd_delay(), runs.scd);
    let ocd_stood = runs::has_stood(s.ocd_delay(), runs.ocd);
    let over_scd = shunt_above(x.shunt, s.scd_level());
    let over_ocd = shunt_above(x.shunt, s.ocd_level());
    let ov_lets_go = span.high < s.ov_release();
    let uv_lets_go = s.uv_release() < span.low;
    let attached = x.load == 1;
    let hot = x.thermistor < 975;
    // a host board's faults wait for the host, but for overtemperature
    let alone = !is_host(kind);
    Latches {
        scd: latches::latch_next(old.scd, scd_stood, alone & (!attached & !over_scd)),
        ocd: latches::latch_next(old.ocd, ocd_stood, alone & (!attached & !over_ocd)),
        ov: latches::latch_next(old.ov, swept.ov_stood != 0, alone & ov_lets_go),
        uv: latches::latch_next(old.uv, swept.uv_stood != 0, alone & uv_lets_go),
        ot: latches::latch_next(old.ot, hot, !hot),
    }
}

// A quiet sample. It is kept as the last one, and answered from the record.
#[tactic(auto, unfolding(crate::specs::Way::rested_of))]
fn rest(b: Board, x: Readings, span: Span) -> Rested
    ensures { result ≡ rested_of b x span }
{
    let status = b.status();
    let mut next = b;
    next.last = last_by(x, span);
    next.samples = number_next(b.samples);
    Rested {
        board: next,
        answer: Sampled { status, bled: 0 },
    }
}

// The lowest cell of a set, where its fault latched, or 0.
fn lowest_if(up: bool, set: u16) -> u8
    ensures { result ≡ lowest_if up set }
{
    if up {
        return cells::lowest_of(set);
    }
    0
}

// Any other accepted sample.
fn accept(b: Board, x: Readings, span: Span, mv: &[u32]) -> Noted
    ensures { result ≡ accepted_by b x span mv.now }
{
    let swept = cells::sweep(b.working, x.elapsed, b.cells, b.flags, mv);
    let currents = currents_next(b.working, b.currents, x);
    let was = latches::latches_of(b.latches);
    let latches = latches_next(b.working, swept, span, currents, x, b.kind, was);
    let up = latches::risen(was, latches);
    let cells = swept.cells;
    let mut next = b;
    next.control = control_up(&b, up);
    next.latches = latches::byte_of(latches);
    next.flags = swept.flags;
    next.currents = currents;
    next.cells = cells;
    next.last = last_by(x, span);
    next.tallies = latches::tallies_next(up, b.tallies);
    next.samples = number_next(b.samples);
    let note = Note {
        answer: Sampled {
            status: next.status(),
            bled: swept.bled,
        },
        up,
        ov: lowest_if(up.ov, swept.ov_stood),
        uv: lowest_if(up.uv, swept.uv_stood),
    };
    Noted { board: next, note }
}

// An accepted sample of a garden board.
fn grow(b: Board, x: Readings, span: Span, mv: &[u32]) -> Noted
    ensures { result ≡ grown_of b x span mv.now }
{
    let old = latches::latches_of(b.latches);
    let grown = garden::grow(b.garden, b.cells, old.ov, old.uv, x.load == 1, span, mv);
    let left = Latches {
        scd: false,
        ocd: false,
        ov: grown.ov,
        uv: grown.uv,
        ot: false,
    };
    let up = latches::risen(old, left);
    let counts = grown.cells;
    let mut next = b;
    next.latches = latches::byte_of(left);
    next.cells = counts;
    next.last = last_by(x, span);
    next.garden = grown.garden;
    next.tallies = latches::tallies_next(up, b.tallies);
    next.samples = number_next(b.samples);
    let note = Note {
        answer: Sampled {
            status: next.status(),
            bled: 0,
        },
        up,
        ov: grown.ov_cell,
        uv: grown.uv_cell,
    };
    Noted { board: next, note }
}

// ---- what latched is entered, behind the step, as it seldom happens

// The latchings of one sample, in their order.
fn enter(b: &mut Board, note: Note)
    ensures { b.new ≡ entered_of b.old note }
{
    let causes = u16::from(latches::byte_of(note.up));
    let number = b.samples;
    b.journal.enter(causes, [0, 0, note.ov, note.uv, 0], number);
}

// The answer of an accepted sample. By itself, so that a journal is touched where something latched and nowhere else.
fn answer(b: &mut Board, note: Note) -> Sampled
    ensures { (result ≡ note.answer) × (b.new ≡ entering b.old note) }
{
    if latches::any_up(note.up) {
        enter(b, note);
    }
    note.answer
}

// ---- the steps on a record where it lies, each taken by value and stored back: docs/TRACE.md, "Expected form in each place", has a sample in that form.
// They had been one routine each, that changed the record where it lay, and were taken apart again for that sentence

fn rest_board(b: &mut Board, x: Readings, span: Span) -> Sampled
    ensures { (result ≡ (rested_of b.old x span).answer) × (b.new ≡ (rested_of b.old x span).board) }
{
    let s = rest(*b, x, span);
    *b = s.board;
    s.answer
}

fn accept_board(b: &mut Board, x: Readings, span: Span, mv: &[u32]) -> Sampled
    ensures { (result ≡ (accepted_by b.old x span mv.now).note.answer) × (b.new ≡ entered_by (accepted_by b.old x span mv.now)) }
{
    let s = accept(*b, x, span, mv);
    *b = s.board;
    answer(b, s.note)
}

fn grow_board(b: &mut Board, x: Readings, span: Span, mv: &[u32]) -> Sampled
    ensures { (result ≡ (grown_of b.old x span mv.now).note.answer) × (b.new ≡ entered_by (grown_of b.old x span mv.now)) }
{
    let s = grow(*b, x, span, mv);
    *b = s.board;
    answer(b, s.note)
}

// ---- the look at a sample

fn out_of_range(x: Readings, span: Span) -> bool
    ensures { result ≡ out_of_range_by x span }
{
    let outside = shunt_outside(x.shunt);
    (5000 < span.high) | (5000 < x.thermistor) | outside | (1 < x.load)
}

// A sample that finds nothing, on a board that has nothing on record: it changes nothing but the last sample and its number. The record is looked at first.
#[tactic(auto, unfolding(crate::specs::Way::quiet_of))]
fn quiet(b: &Board, x: Readings, span: Span) -> bool
    ensures { result ≡ quiet_of b.now x span }
{
    let clear = !is_garden(b.kind) & ((b.latches == 0) & (b.flags == 0));
    let idle = (b.currents.ocd == 0) & (b.currents.scd == 0);
    if clear & idle {
        let calm = cells::calm(b.working, b.cells, span);
        let over_ocd = shunt_above(x.shunt, b.working.ocd_level());
        let over_scd = shunt_above(x.shunt, b.working.scd_level());
        let outside = shunt_outside(x.shunt);
        let warm = !(x.thermistor < 975) & !(5000 < x.thermistor);
        return calm & ((!over_ocd & !over_scd) & (warm & (!outside & !(1 < x.load))));
    }
    false
}

// The lowest and the highest cell are found once, for all that is asked of every cell.
fn look(b: &Board, x: Readings, mv: &[u32]) -> Result<Found, Refusal>
    ensures { result ≡ look_of b.now x mv.now }
{
    if bad_board(b) {
        return Err(Refusal::BadRow);
    }
    if mv.len() != b.count as usize {
        return Err(Refusal::CellList);
    }
    if (x.elapsed < 1) | (100000 < x.elapsed) {
        return Err(Refusal::Elapsed);
    }
    let span = cells::span_of(mv);
    if quiet(b, x, span) {
        return Ok(Found::Quiet(span));
    }
    if out_of_range(x, span) {
        return Err(Refusal::OutOfRange);
    }
    if is_garden(b.kind) {
        return Ok(Found::Grows(span));
    }
    Ok(Found::Changes(span))
}

// A sample of one board: refused, with its answer; quiet; a garden board's; or it may change the board.
pub fn sample_board(b: &mut Board, x: Readings, mv: &[u32]) -> Result<Sampled, Refusal>
    ensures { (result ≡ (sample_of b.old x mv.now).answer) × (b.new ≡ (sample_of b.old x mv.now).board) }
{
    match look(b, x, mv)? {
        Found::Quiet(span) => Ok(rest_board(b, x, span)),
        Found::Grows(span) => Ok(grow_board(b, x, span, mv)),
        Found::Changes(span) => Ok(accept_board(b, x, span, mv)),
    }
}
