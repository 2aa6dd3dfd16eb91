// The small garden packs (02, ticket 5): their device table, and the filtered scheme of document 003, by counts of samples.
#![tactic(auto)]

ghost use Rattle.std.specs.Prelude.{◌≡◌, cond};
ghost use Rattle.garden.specs.Device.{device_of};
ghost use Rattle.garden.specs.Filter.{count_next, cells_after};
ghost use Rattle.garden.specs.Way.{reached_by, filtered_by, grow_by};

use cells::{Cell, Span};

// What a garden board has of its own: its row of the device table, its trigger, and the recovery counts of OV and UV.
#[repr(C)]
#[derive(Clone, Copy)]
pub struct Garden {
    pub row: u8,
    pub trigger: u8,
    pub ov_back: u8,
    pub uv_back: u8,
}

// A row of the device table: levels and hystereses in mV, and whether UV waits for the load to be removed.
#[derive(Clone, Copy)]
pub struct Device {
    pub ov: u32,
    pub ov_hysteresis: u32,
    pub uv: u32,
    pub uv_hysteresis: u32,
    pub load_removal: bool,
}

// BQ7791500, 01 and 04.
const DEVICES: [Device; 3] = [
    Device {
        ov: 4200,
        ov_hysteresis: 200,
        uv: 2900,
        uv_hysteresis: 400,
        load_removal: true,
    },
    Device {
        ov: 4250,
        ov_hysteresis: 200,
        uv: 2800,
        uv_hysteresis: 400,
        load_removal: true,
    },
    Device {
        ov: 4275,
        ov_hysteresis: 100,
        uv: 2000,
        uv_hysteresis: 200,
        load_removal: false,
    },
];

// The row of a number; an unknown one, which no good record has, is taken for the first.
fn device_of(row: u8) -> Device
    ensures { result ≡ device_of row }
{
    DEVICES.get(usize::from(row)).copied().unwrap_or(DEVICES[0])
}

// A count, one sample on; it stays within a byte, which no trigger passes.
#[tactic(auto, unfolding(crate::specs::Filter::count_next))]
fn count_next(past: bool, count: u32) -> u32
    ensures { result ≡ count_next past count }
{
    if past {
        count.saturating_add(1).min(255)
    } else {
        count.saturating_sub(1)
    }
}

// The lowest cells whose counts of OV and of UV reach the trigger; 0 for none, as an entry of the journal has it.
#[derive(Clone, Copy)]
struct Reached {
    ov: u8,
    uv: u8,
}

// The device, the cells and the readings stand apart here and below, as in the definitions: a struct of the three would hold a borrow, for two calls.
fn reached_of(d: Device, trigger: u8, cells: [Cell; 10], mv: &[u32]) -> Reached
    ensures { result ≡ reached_by d trigger cells mv.now }
{
    let mut ov = 0;
    let mut uv = 0;
    for i in (0..cells::cell_count(mv.len())).rev() {
        let v = mv[i];
        ov = cells::lower_to(trigger as u32 <= count_next(d.ov < v, cells[i].ov), i, ov);
        uv = cells::lower_to(trigger as u32 <= count_next(v < d.uv, cells[i].uv), i, uv);
    }
    Reached { ov, uv }
}

fn count_or_none(none: bool, past: bool, count: u32) -> u32
    ensures { result ≡ cond none 0 (count_next past count) }
{
    if none { 0 } else { count_next(past, count) }
}

// The cells one sample on; where a fault is latched all its counts are zero.
fn count_cells(d: Device, cells: [Cell; 10], ov_none: bool, uv_none: bool, mv: &[u32]) -> [Cell; 10]
    ensures { result ≡ cells_after d cells mv.now ov_none uv_none }
{
    let mut next = cells;
    for i in (0..cells::cell_count(mv.len())).rev() {
        let v = mv[i];
        let ov = count_or_none(ov_none, d.ov < v, cells[i].ov);
        let uv = count_or_none(uv_none, v < d.uv, cells[i].uv);
        next[i] = Cell { ov, uv };
    }
    next
}

// One fault after a sample: its recovery count, where it is latched.
fn filter(trigger: u8, was: bool, back: u8, inside: bool, reached: u8) -> Option<u8>
    ensures { result ≡ filtered_by trigger was back inside reached }
{
    if !was {
        return (reached != 0).then_some(0);
    }
    let next = count_next(inside, u32::from(back));
    if next < u32::from(trigger) {
        Some(next as u8)
    } else {
        None
    }
}

// A garden board after a sample: its cells' counts, its own part, its latches, and the lowest cells that reach the trigger, or 0. The cells stand in it,
// and are not changed where they lie, since `grow`, which docs/TRACE.md names, promises that its result is the record of `grow_by`.
#[derive(Clone, Copy)]
pub struct Grown {
    pub cells: [Cell; 10],
    pub garden: Garden,
    pub ov: bool,
    pub uv: bool,
    pub ov_cell: u8,
    pub uv_cell: u8,
}

// One sample of a garden board, with its latches before, whether the load is attached, and its lowest and highest cell. Seven parameters, since its
// contract, which docs/TRACE.md cites by the law `grow-by`, says each by itself.
pub fn grow(
    g: Garden,
    cells: [Cell; 10],
    ov: bool,
    uv: bool,
    loaded: bool,
    span: Span,
    mv: &[u32],
) -> Grown
    ensures { result ≡ grow_by g cells ov uv loaded span mv.now }
{
    let d = device_of(g.row);
    let low = reached_of(d, g.trigger, cells, mv);
    let next = count_cells(d, cells, ov | (low.ov != 0), uv | (low.uv != 0), mv);
    let ov_inside = span.high < d.ov - d.ov_hysteresis;
    let uv_inside = (d.uv + d.uv_hysteresis < span.low) & !(d.load_removal & loaded);
    let ov_after = filter(g.trigger, ov, g.ov_back, ov_inside, low.ov);
    let uv_after = filter(g.trigger, uv, g.uv_back, uv_inside, low.uv);
    let garden = Garden {
        row: g.row,
        trigger: g.trigger,
        ov_back: ov_after.unwrap_or(0),
        uv_back: uv_after.unwrap_or(0),
    };
    Grown {
        cells: next,
        garden,
        ov: ov_after.is_some(),
        uv: uv_after.is_some(),
        ov_cell: low.ov,
        uv_cell: low.uv,
    }
}
